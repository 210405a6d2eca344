//! The texts that the program has of itself.
ghost use Rattle.std.specs.Prelude.{◌≡◌, IfOk};
ghost use Rattle.ca_flow.specs.Usage.{usage_text, version_text};

use ca_base::NoMemory;
use ca_lex::Text;
use std::alloc::Global;

/// How the program is used.
pub(crate) fn usage(alloc: Global) -> Result<Text, NoMemory>
    ensures { IfOk result (λ text. text ≡ usage_text) }
{
    Text::from_bytes(
        alloc,
        b"\
usage: cellaware COMMAND WORDS

  cellaware respond CELLS CELL VECTOR          the value of each output pin of CELL under VECTOR
  cellaware pair CELLS CELL FIRST LAST DEFECT  the same after FIRST and LAST, with DEFECT or -
  cellaware defects CELLS CELL                 the names of the defects of CELL
  cellaware matrix CELLS CELL OUT              the defect matrix of CELL to OUT, as CSV
  cellaware check CELLS NETLIST SCAN           what the chip of NETLIST has, with SCAN or -
  cellaware flatten CELLS NETLIST SCAN INSTANCE DEFECT OUT
                                               the flat network, good or with DEFECT, to OUT
  cellaware simulate CELLS NETLIST SCAN INSTANCE DEFECT FIRST LAST
                                               each output after both, without and with DEFECT
  cellaware atpg CELLS NETLIST SCAN STIL REPORT BUDGET
                                               patterns to STIL and a verdict for each defect to REPORT
  cellaware replay CELLS NETLIST SCAN INSTANCE DEFECT FIRST LAST ORDER
                                               each output after the events of ORDER between both
  cellaware grade CELLS NETLIST SCAN STIL REPORT
                                               which defects the patterns in STIL show, to REPORT
  cellaware diagnose CELLS NETLIST SCAN STIL LOG OUT
                                               which defects the failing outputs in LOG leave, to OUT
  cellaware certify CELLS NETLIST SCAN STIL CERT BUDGET
                                               patterns to STIL, and to CERT what proves each verdict
  cellaware verify CELLS NETLIST SCAN STIL CERT
                                               whether each claim in CERT stands for the patterns in STIL
  cellaware bridges CELLS NETLIST SCAN INSTANCE STIL REPORT BUDGET
                                               patterns for shorts at the pins of INSTANCE, and verdicts
  cellaware make N                             test generation on a generated chip of N gates, up to 4096
  cellaware --help                             this text
  cellaware --version                          the version

CELLS is a netlist of transistors, in SPICE or CDL; a vector has 0, 1 or X per input pin.
NETLIST is a netlist of gates, in Verilog; SCAN is a table of scan cells, as CSV, or -.
INSTANCE is one of a cell, and DEFECT one of its defects, or both are -.
BUDGET is how many branches each search may have, at most 65536.
The words strengths TABLE before a command but make read CELLS under a table of five ratios.
The word --progress before a command tells on the standard error how far atpg, grade,
diagnose, certify, bridges or make is.
ORDER has the events of one run: settle and blur with nodes, set with a node and a value.
Exit status: 0 done, 1 bad command line, 2 wrong contents, 3 a limit, 4 a file or the output
failed, 5 out of memory. One line on the standard error says why.
Documents in the sources: README.md, docs/TUTORIAL.md, docs/FAULTS.md, docs/cellaware.1.
",
    )
}

/// Which version the program is.
pub(crate) fn version(alloc: Global) -> Result<Text, NoMemory>
    ensures { IfOk result (λ text. text ≡ version_text) }
{
    Text::from_bytes(alloc, b"cellaware 0.2.0\n")
}
