//! The texts of kinds of faults, of rules and of limits.
ghost use Rattle.std.specs.Prelude.{◌≡◌, ◌++◌, codes};
ghost use Rattle.ca_fault.specs.KindText.{kind_text, netlist_text, rule_text, chip_text, limit_text};
ghost use Rattle.ca_fault.specs.KindText.{most_text};

use crate::fault::LimitKind;
use ca_cell::CellRule;
use ca_spice::SpiceKind;
use ca_verilog::VerilogKind;
use ca_wiring::ChipFault;

/// The text of a kind of faulty line, after the line's number.
pub(crate) fn kind_text(kind: SpiceKind) -> &'static [u8]
    ensures { result.now ≡ codes ": " ++ kind_text kind }
{
    match kind {
        SpiceKind::UnknownCard => b": UnknownCard",
        SpiceKind::BadCard => b": BadCard",
        SpiceKind::NoPinInfo => b": NoPinInfo",
        SpiceKind::BadRole => b": BadRole",
        SpiceKind::BadLength => b": BadLength",
        SpiceKind::DoubleName => b": DoubleName",
        SpiceKind::Unended => b": Unended",
        SpiceKind::NotText => b": NotText",
    }
}

/// The text of a rule, after the cell's name.
pub(crate) fn rule_text(rule: CellRule) -> &'static [u8]
    ensures { result.now ≡ codes ": " ++ rule_text rule }
{
    match rule {
        CellRule::NoRail => b": NoRail",
        CellRule::TooManyDevices { .. } => b": TooManyDevices",
        CellRule::TooManyNodes { .. } => b": TooManyNodes",
        CellRule::TooManyInputs { .. } => b": TooManyInputs",
        CellRule::NoOutput => b": NoOutput",
        CellRule::TooManyOutputs { .. } => b": TooManyOutputs",
        CellRule::InputDrivesChannel { .. } => b": InputDrivesChannel",
    }
}

/// The text of a kind of faulty token, after the line's number.
pub(crate) fn netlist_text(kind: VerilogKind) -> &'static [u8]
    ensures { result.now ≡ codes ": " ++ netlist_text kind }
{
    match kind {
        VerilogKind::Syntax => b": Syntax",
        VerilogKind::Undeclared => b": Undeclared",
        VerilogKind::DoubleName => b": DoubleName",
        VerilogKind::BadRange => b": BadRange",
        VerilogKind::Unsupported => b": Unsupported",
        VerilogKind::NotText => b": NotText",
    }
}

/// The text of a rule of linking.
pub(crate) fn chip_text(fault: &ChipFault) -> &'static [u8]
    ensures { result.now ≡ codes "chip: " ++ chip_text fault.now }
{
    match fault {
        ChipFault::UnknownCell { .. } => b"chip: UnknownCell",
        ChipFault::Cell { .. } => b"chip: Cell",
        ChipFault::UnknownPin { .. } => b"chip: UnknownPin",
        ChipFault::MissingPin { .. } => b"chip: MissingPin",
        ChipFault::DoubleDriven { .. } => b"chip: DoubleDriven",
        ChipFault::Undriven { .. } => b"chip: Undriven",
        ChipFault::ControlPin { .. } => b"chip: ControlPin",
        ChipFault::ControlObserved { .. } => b"chip: ControlObserved",
        ChipFault::QnUsed { .. } => b"chip: QnUsed",
        ChipFault::Loop { .. } => b"chip: Loop",
        ChipFault::TooManyInstances { .. } => b"chip: TooManyInstances",
        ChipFault::TooManyInputs { .. } => b"chip: TooManyInputs",
        ChipFault::TooManyOutputs { .. } => b"chip: TooManyOutputs",
        ChipFault::TooManyDefects { .. } => b"chip: TooManyDefects",
        ChipFault::NoMemory => b"chip: NoMemory",
    }
}

/// What there is too much of, before its number.
pub(crate) fn limit_text(kind: LimitKind) -> &'static [u8]
    ensures { result.now ≡ codes "limit: " ++ (limit_text kind ++ codes " ") }
{
    match kind {
        LimitKind::Cells => b"limit: Cells ",
        LimitKind::Nets => b"limit: Nets ",
        LimitKind::Instances => b"limit: Instances ",
        LimitKind::Inputs => b"limit: Inputs ",
        LimitKind::Outputs => b"limit: Outputs ",
        LimitKind::Defects => b"limit: Defects ",
        LimitKind::Chains => b"limit: Chains ",
        LimitKind::Pairs => b"limit: Pairs ",
    }
}

/// What there is too much of, and how much there may be, after its number.
pub(crate) fn most_text(kind: LimitKind) -> &'static [u8]
    ensures { result.now ≡ most_text kind ++ codes "\n" }
{
    match kind {
        LimitKind::Cells => b" cells, at most 1024\n",
        LimitKind::Nets => b" nets, at most 131072\n",
        LimitKind::Instances => b" instances, at most 32768\n",
        LimitKind::Inputs => b" inputs, at most 4096\n",
        LimitKind::Outputs => b" outputs, at most 8192\n",
        LimitKind::Defects => b" defects, at most 1048576\n",
        LimitKind::Chains => b" chains, at most 64\n",
        LimitKind::Pairs => b" pairs, at most 65536\n",
    }
}
