//! Why a call on a floor stops: each ground has a number, and some carry what a part below told.
#![tactic(auto)]

ghost use Rattle.std.specs.Prelude.{◌≡◌, Some};
ghost use Rattle.fault.specs.Faults.{number, words, shown_fault, fault_of, SameNumber};
ghost use Rattle.fault.specs.declared.Fault.TheVariants as faults;

use chooser::ChooserRefusal;
use frame::FrameFault;
use refusal::Refusal;
use std::error::Error;
use std::fmt;

/// Why a call on a floor stops. Where one number stands for two grounds, each is a case of its own: the call knows which it is.
#[derive(Clone, Copy, Debug, PartialEq, Eq)]
pub enum Fault {
    /// The floor was never opened.
    Closed,
    /// The floor is to be opened a second time.
    AlreadyOpen,
    /// A table's length is not allowed, or not that of the opening.
    TableLength,
    /// The frame table has no such slot, or the slot is empty.
    NoSlot,
    /// The slot holds no frame: what is at fault in it, and where.
    Unreadable(FrameFault),
    /// No operation with this number was started.
    NotStarted,
    /// The operation is no longer open.
    NotOpen,
    /// The operation is no regroup.
    NoRegroup,
    /// The node is zero or above the node count.
    NoNode,
    /// A floor is to be opened with no nodes, or with more than 16.
    NodeCount,
    /// The node has stopped.
    Stopped,
    /// The node is in no group yet.
    Idle,
    /// A change of the node's group has begun.
    Frozen,
    /// The node is not the primary of its group.
    NotPrimary,
    /// The node is no longer under the number that the operation was started under.
    OtherNumber,
    /// The members are no lawful list, or one of them is above the node count.
    Unlawful,
    /// The places that froze for the regroup, its answering set, do not win.
    TooFewFrozen,
    /// Nothing is decided under the node's number.
    NoDecision,
    /// What is decided under the node's number is no proposal for it, or not yet.
    NotProposed,
    /// All operation rows are used.
    OperationsUsed,
    /// The node has given out the last version.
    LastVersion,
    /// The frame table has fewer empty slots than frames are to be sent.
    TooFewSlots,
    /// All proposal rows are used.
    ProposalsUsed,
    /// The chooser refused, and why.
    Chooser(ChooserRefusal),
}

impl Fault {
    /// The number of the ground: `Fault::NoNode.number()` is 7.
    pub fn number(self) -> u8
        ensures { result ≡ number self }
    {
        match self {
            Fault::Closed | Fault::AlreadyOpen => 1,
            Fault::TableLength => 2,
            Fault::NoSlot => 3,
            Fault::Unreadable(_) => 4,
            Fault::NotStarted => 5,
            Fault::NotOpen | Fault::NoRegroup => 6,
            Fault::NoNode | Fault::NodeCount => 7,
            Fault::Stopped => 8,
            Fault::Idle => 9,
            Fault::Frozen => 10,
            Fault::NotPrimary => 11,
            Fault::OtherNumber => 12,
            Fault::Unlawful => 13,
            Fault::TooFewFrozen => 14,
            Fault::NoDecision => 15,
            Fault::NotProposed => 16,
            Fault::OperationsUsed => 17,
            Fault::LastVersion => 18,
            Fault::TooFewSlots => 19,
            Fault::ProposalsUsed => 20,
            Fault::Chooser(_) => 21,
        }
    }

    // The ground in words.
    fn words(self) -> &'static str
        ensures { result.now ≡ words self }
    {
        match self {
            Fault::Closed => "floor not open",
            Fault::AlreadyOpen => "floor already open",
            Fault::TableLength => "table length not allowed, or not that of the opening",
            Fault::NoSlot => Refusal::NoSlot.words(),
            Fault::Unreadable(_) => "slot unreadable",
            Fault::NotStarted => "operation not started",
            Fault::NotOpen => "operation not open",
            Fault::NoRegroup => "operation is no regroup",
            Fault::NoNode => "node zero or above the node count",
            Fault::NodeCount => "node count not 1 to 16",
            Fault::Stopped => "node stopped",
            Fault::Idle => "node idle",
            Fault::Frozen => "node frozen",
            Fault::NotPrimary => "node not primary",
            Fault::OtherNumber => "node no longer under the operation's number",
            Fault::Unlawful => "unlawful members, or one above the node count",
            Fault::TooFewFrozen => "answering set does not win",
            Fault::NoDecision => "no decision under the node's number",
            Fault::NotProposed => "decision names no used proposal row of that number",
            Fault::OperationsUsed => "operation rows used up",
            Fault::LastVersion => "newest version is 9999",
            Fault::TooFewSlots => Refusal::TooFewSlots.words(),
            Fault::ProposalsUsed => "proposal rows used up",
            Fault::Chooser(_) => "chooser refused",
        }
    }
}

/// The fault of an unreadable slot is carried as it is.
impl From<FrameFault> for Fault {
    ghost from_gives = { λ fault e. e ≡ faults.Unreadable fault };

    fn from(fault: FrameFault) -> Fault {
        Fault::Unreadable(fault)
    }
}

/// So is the refusal of a chooser.
impl From<ChooserRefusal> for Fault {
    ghost from_gives = { λ refusal e. e ≡ faults.Chooser refusal };

    fn from(refusal: ChooserRefusal) -> Fault {
        Fault::Chooser(refusal)
    }
}

/// A refusal of a part below becomes the ground of the same number.
impl From<Refusal> for Fault {
    ghost from_gives = { λ refusal e. e ≡ fault_of refusal };

    fn from(refusal: Refusal) -> Fault
        ensures number { SameNumber refusal result }
    {
        match refusal {
            Refusal::NoSlot => Fault::NoSlot,
            Refusal::Unlawful => Fault::Unlawful,
            Refusal::TooFewSlots => Fault::TooFewSlots,
        }
    }
}

impl fmt::Display for Fault {
    ghost output = { λ fault. Some (shown_fault fault) };

    fn fmt<W: fmt::Write>(&self, f: &mut fmt::Formatter<W>) -> fmt::Result {
        match self {
            Fault::Unreadable(fault) => {
                let cause = fault.cause.number();
                let offset = fault.offset;
                write!(
                    f,
                    "{} cause {cause} offset {offset}: slot unreadable",
                    self.number()
                )
            }
            Fault::Chooser(refusal) => write!(f, "{} chooser {refusal}", self.number()),
            _ => write!(f, "{}: {}", self.number(), self.words()),
        }
    }
}

impl Error for Fault {}
