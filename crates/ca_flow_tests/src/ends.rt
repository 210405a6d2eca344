//! The work that is done where the output fails, and the line of a fault that no case can bring about.

ghost use Rattle.std.specs.Prelude.{◌≡◌, IfOk};
ghost use Rattle.ca_store.specs.Store.{Nothing};
ghost use Rattle.ca_store.specs.MemStore.{opened_by};

use ca_base::NoMemory;
use ca_flow::{Done, Fault, Unwatched, run, tell};
use ca_lex::Text;
use ca_store::{FailList, File, FileMap, MemSink, MemStore, StoreCall};
use std::alloc::Global;
use std::test::Fail;

const NAND2: &str = "\
.SUBCKT NAND2 A1 A2 ZN VDD VSS
*.PININFO A1:I A2:I ZN:O VDD:P VSS:G
MP1 ZN A1 VDD VDD PCH W=630n L=50n
MP2 ZN A2 VDD VDD PCH W=630n L=50n
MN1 ZN A1 N1 VSS NCH W=415n L=50n
MN2 N1 A2 VSS VSS NCH W=415n L=50n
.ENDS
";

// The smallest benchmark of its family: six gates.
const C17: &str = "\
module c17(N1, N2, N3, N6, N7, N22, N23);
  input N1, N2, N3, N6, N7; output N22, N23; wire N10, N11, N16, N19;
  NAND2 g0 (.A1(N1), .A2(N3), .ZN(N10));
  NAND2 g1 (.A1(N3), .A2(N6), .ZN(N11));
  NAND2 g2 (.A1(N2), .A2(N11), .ZN(N16));
  NAND2 g3 (.A1(N11), .A2(N7), .ZN(N19));
  NAND2 g4 (.A1(N10), .A2(N16), .ZN(N22));
  NAND2 g5 (.A1(N16), .A2(N19), .ZN(N23)); endmodule
";

/// A command whose work is done.
#[derive(Clone, Copy, Debug, PartialEq, Eq)]
enum Work {
    Respond,
    Check,
    Other,
}

// One file more, if none has its name.
fn add_file(alloc: Global, files: &mut FileMap, name: &str, text: &str) -> Result<(), NoMemory> {
    let file = File {
        name: Text::from_bytes(alloc, name.as_bytes())?,
        bytes: Text::from_bytes(alloc, text.as_bytes())?,
    };
    if files.place_of(file.name.as_bytes()).is_none() {
        files.add(file)?;
    }
    Ok(())
}

// A store of the library and the netlist in which one call fails.
fn store_of(alloc: Global, call: StoreCall, number: u32) -> Result<MemStore, NoMemory>
    ensures { IfOk result (λ store. opened_by store ≡ Nothing) }
{
    let mut files = FileMap::new(alloc);
    add_file(alloc, &mut files, "n.sp", NAND2)?;
    add_file(alloc, &mut files, "c17.v", C17)?;
    let mut fail = FailList::new(alloc);
    fail.push(call, number)?;
    MemStore::new(alloc, files, 60, 0, fail)
}

// The words of a command line, with one blank between two.
fn words_of(alloc: Global, line: &str) -> Result<Vec<String>, NoMemory> {
    let mut words = Vec::new(alloc);
    for word in line.split(' ') {
        words.push(String::from_str(alloc, word)?)?;
    }
    Ok(words)
}

fn work_of(done: &Done) -> Work {
    match done {
        Done::Respond { .. } => Work::Respond,
        Done::Check { .. } => Work::Check,
        _ => Work::Other,
    }
}

// The work that is done over a store in which one call fails, and an output of this room.
fn work_left(
    alloc: Global,
    line: &str,
    call: StoreCall,
    number: u32,
    room: usize,
) -> Result<Option<Work>, NoMemory> {
    let words = words_of(alloc, line)?;
    let mut store = store_of(alloc, call, number)?;
    let mut output = MemSink::new(alloc, room, FailList::new(alloc))?;
    let end = run(alloc, &words, &mut store, &mut output, &mut Unwatched);
    let work = match &end.done {
        Some(done) => Some(work_of(done)),
        None => None,
    };
    end.discard();
    Ok(work)
}

// Only an output that fails leaves the work whole.
static ROWS: [(&str, StoreCall, u32, usize, Option<Work>); 7] = [
    ("respond n.sp NAND2 11", StoreCall::Open, 1, 9, None),
    ("respond n.sp NAND2 11", StoreCall::Read, 1, 9, None),
    ("respond n.sp NAND2 11", StoreCall::Read, 3, 9, None),
    ("respond n.sp NAND2 11", StoreCall::Close, 1, 9, None),
    (
        "respond n.sp NAND2 11",
        StoreCall::Read,
        999,
        0,
        Some(Work::Respond),
    ),
    (
        "respond n.sp NAND2 11",
        StoreCall::Read,
        999,
        2,
        Some(Work::Respond),
    ),
    (
        "check n.sp c17.v -",
        StoreCall::Read,
        999,
        9,
        Some(Work::Check),
    ),
];

#[test]
fn what_an_output_does_not_take_is_still_done(rt: HostRuntime) -> Result<(), Fail> {
    for (line, call, number, room, wanted) in &ROWS {
        let found = work_left(rt.alloc(), line, *call, *number, *room)?;
        assert_eq!(rt; found, *wanted, "at {line}");
    }
    Ok(())
}

#[test]
fn out_of_memory_has_its_line(rt: HostRuntime) -> Result<(), Fail> {
    let mut reported = MemSink::new(rt.alloc(), 100, FailList::new(rt.alloc()))?;
    assert_eq!(rt; tell(&Fault::NoMemory, &mut reported), 5);
    assert_eq!(rt; reported.bytes(), b"cellaware: out of memory\n".as_slice());
    Ok(())
}
