// What a guest does.
use vsm_base::{Gva, Items, Name};

/// What a store writes.
#[derive(Clone, Copy, Debug, PartialEq, Eq)]
pub enum Operand {
    /// This number.
    Number(u64),
    /// What this general register holds as the attempt begins.
    Register(Name),
}

/// An operation of a guest's program. The operations are this project's own; each stands for an instruction or
/// an access of a guest.
#[derive(Clone, Copy, Debug, PartialEq, Eq)]
pub enum Op {
    /// Writes a register of the active level.
    Set(Name, u128),
    /// Reads a register of the active level.
    Get(Name),
    /// Reads a word into a register.
    Load(Name, Gva),
    /// Writes a word.
    Store(Gva, Operand),
    /// Executes at an address.
    Exec(Gva),
    /// Reads a word until it has this value.
    Spin(Gva, u64),
    /// Goes on at this operation.
    Jump(u64),
    /// Goes on at the last of the three where the register hasn't the value in the middle.
    JumpNe(Name, u64, u64),
    /// Drops a cached address page.
    Invlpg(Gva),
    /// Makes the hypercall that the registers name.
    Hypercall,
    /// Calls level 1.
    VtlCall,
    /// Returns to level 0.
    VtlReturn,
    /// Takes the pending vectors.
    Poll,
    /// Takes the deliverable vector into service.
    Ack(Name),
    /// Ends the highest vector in service.
    Eoi,
    /// Ends a message.
    Eom,
}

/// A processor's operations, of level 0 and of level 1, at most 4,096 each.
#[derive(Debug, Drop)]
pub struct Program {
    pub zero: Items<Op>,
    pub one: Items<Op>,
}
