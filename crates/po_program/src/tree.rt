// SPDX-License-Identifier: MIT
//! The program of a protected object: names are resolved to cells and numbers, bounds to numbers, and no type is left.
//!
//! A value of any discrete type is an integer: an integer itself, the position number of an enumeration literal (3.5.1), 0 for
//! False and 1 for True. An array or a record is a run of cells, one for each scalar component.

/// The values from `low` to `high` (3.5). If `low` is above `high`, the range is null.
#[derive(Clone, Copy, Debug, PartialEq, Eq)]
pub struct Range {
    pub low: i128,
    pub high: i128,
}

/// What the results of an operator can be (3.5.4).
#[derive(Clone, Copy, Debug, PartialEq, Eq)]
pub enum Base {
    /// The values of this range, which is within 64 bits. Any other result raises Constraint_Error (4.5(10)).
    Signed(Range),
    /// The values from 0 to this modulus less one: results wrap around. A modulus is from 1 to 2 ** 64.
    Modular(u128),
}

/// An operator with one operand (4.5.4, 4.5.6).
#[derive(Clone, Copy, Debug, PartialEq, Eq)]
pub enum Unary {
    /// `not` of a Boolean. (Of a modular type, `not X` is the modulus less one less X.)
    Not,
    /// The unary `-`.
    Minus(Base),
    Abs(Base),
}

/// An operator or an attribute with two operands, which are evaluated from left to right.
///
/// `A /= B` is `not (A = B)`, `A > B` is `not (A <= B)`, and `A >= B` is `not (A < B)`.
#[derive(Clone, Copy, Debug, PartialEq, Eq)]
pub enum Binary {
    /// `+`, also for Succ and Pred with -1 (4.5.3).
    Add(Base),
    /// The binary `-` (4.5.3).
    Subtract(Base),
    /// `*` (4.5.5).
    Multiply(Base),
    /// `/`, which truncates toward zero (4.5.5).
    Divide(Base),
    /// `mod`, which has the sign of the divisor (4.5.5).
    Mod(Base),
    /// `rem`, which has the sign of the dividend (4.5.5).
    Rem(Base),
    /// `**` of a signed type, whose exponent is of the subtype Natural, 0 to 2 ** 31 - 1 (4.5.6). (Of a modular type, `**` is a
    /// loop of multiplications.)
    Power(Range),
    /// `and` of Booleans, and bit by bit of modular types; neither operand is negative (4.5.1).
    And(Base),
    /// `or`, like `and`.
    Or(Base),
    /// `xor`, like `and`.
    Xor(Base),
    /// `=` (4.5.2).
    Equal,
    /// `<`.
    Less,
    /// `<=`.
    AtMost,
    /// The attribute Min (3.5).
    Min,
    /// The attribute Max (3.5).
    Max,
}

/// The list that a cell is in.
#[derive(Clone, Copy, Debug, PartialEq, Eq)]
pub enum Area {
    /// Among the data of the protected object. Functions and barriers read them and change none (9.5.1).
    Object,
    /// In the frame of the operation that is executed. Slots 0 to 7 are the parameters, as the call has them (6.4.1). A
    /// function leaves its result in slot 0. Slot 8 is the index of an entry family (9.5.2). The other slots are local variables
    /// and intermediate values.
    Frame,
}

/// An expression (4.4). It changes nothing and calls nothing: a call of a function is a statement before it.
#[derive(Drop, Debug)]
pub enum Expr {
    /// A static value (4.9).
    Number(i128),
    /// A variable, or a component at a place that is known.
    Cell(Area, u16),
    /// An array's component: the array's first cell, and how far from it the component is (4.1.1). The distance is a sum of
    /// `Index` and of the places of record components.
    CellAt(Area, u16, Box<Expr>),
    /// How far from an array's first cell the component with this index is: the index range, how many cells a component takes,
    /// and the index. An index outside of the range raises Constraint_Error (4.1.1).
    Index(Range, u16, Box<Expr>),
    /// The attribute Count of the entry of this number (9.9).
    Count(u16),
    /// The attribute Count of a family's member: the family's first entry, and the distance from it, an `Index`.
    CountAt(u16, Box<Expr>),
    Unary(Unary, Box<Expr>),
    Binary(Binary, Box<Expr>, Box<Expr>),
    /// `and then` (4.5.1).
    AndThen(Box<Expr>, Box<Expr>),
    /// `or else` (4.5.1).
    OrElse(Box<Expr>, Box<Expr>),
    /// An if expression: the condition, and the two dependent expressions (4.5.7). A case expression is a chain of them.
    If(Box<Expr>, Box<Expr>, Box<Expr>),
    /// Whether the value is in the range: a membership test, or a choice (4.5.2).
    In(Range, Box<Expr>),
    /// The value, which has to be in the range, or Constraint_Error is raised: a conversion to a subtype (4.6).
    Check(Range, Box<Expr>),
    /// A raise expression: the exception of this number (11.3).
    Raise(u32),
}

/// A statement (5.1). A list of statements is a tree of `Then`, best a balanced one.
///
/// Assert is an `If` with a `Raise` (11.4.2), a case statement a chain of `If` (5.4), and `exit when` an `If` with an `Exit`
/// (5.7). A while loop is a `Loop` that begins with such an exit; a for loop is one too, with its bounds and its parameter in
/// slots (5.5). A block is its statements, in a `Handle` if it has exception handlers (5.6).
#[derive(Drop, Debug)]
pub enum Stmt {
    /// `null;`
    Null,
    /// The cell gets the value (5.2).
    Assign(Area, u16, Expr),
    /// A component gets a value: the array's first cell, the distance as in `CellAt`, and the value, which is evaluated first.
    AssignAt(Area, u16, Expr, Expr),
    /// One statement and then another (5.1).
    Then(Box<Stmt>, Box<Stmt>),
    /// The condition, the statements if it is True, and those if it is False (5.3).
    If(Expr, Box<Stmt>, Box<Stmt>),
    /// A loop without an iteration scheme (5.5). Each turn spends one of the turns that the operation's loops have together.
    Loop(Box<Stmt>),
    /// Leaves the innermost loop, and this many loops around it (5.7).
    Exit(u16),
    /// Leaves the operation (6.5). A function's result is in slot 0 then.
    Return,
    /// Raises the exception of this number (11.3).
    Raise(Expr),
    /// Puts the call on the queue of an entry: the entry, or a family's first one, the distance from it, and whether the requeue
    /// is `with abort` (9.5.4). The values of the call are those in slots 0 to 7.
    Requeue(u16, Expr, bool),
    /// Executes an operation of the object (6.4): its number, and the slot of this frame with which the operation's own frame
    /// begins. So its parameters are in this slot and the next ones, before and after the call, as copy-in and copy-back (6.4.1).
    Call(u16, u16),
    /// Statements with exception handlers (11.2, 11.4): if they raise an exception, its number gets into the slot, and the last
    /// statements are executed. These are a chain of `If`, which ends with a `Raise` of the slot if no handler serves.
    Handle(Box<Stmt>, u16, Box<Stmt>),
}

/// How the execution of a statement ends (7.6.1(2)).
#[derive(Clone, Copy, Debug, PartialEq, Eq)]
pub enum Completion {
    /// Execution goes on after it.
    Normal,
    /// The innermost loop is left, and this many loops around it.
    Exited(u16),
    Returned,
    /// The exception of this number is propagated.
    Raised(u32),
    /// The call is put on the queue of this entry. The flag says whether `with abort`.
    Requeued(u16, bool),
}

/// A procedure, a function, an entry body or a barrier, or the statements that give the object's data their initial values.
#[derive(Drop, Debug)]
pub struct Operation {
    /// How many slots its frame has.
    pub slots: u16,
    pub body: Stmt,
}

/// An entry, or a member of an entry family (9.5.2).
#[derive(Clone, Copy, Debug, PartialEq, Eq)]
pub struct Entry {
    /// The operation that leaves the barrier's value in slot 0.
    pub barrier: u16,
    /// The operation that is the entry's body.
    pub body: u16,
    /// The member's index, which both have in slot 8; of a single entry any number.
    pub index: i128,
}

/// The program of a protected object. It holds no names: tables beside it tell the names of entries, operations and exceptions.
#[derive(Drop, Debug)]
pub struct Program {
    /// How many cells the object's data take.
    pub cells: u16,
    /// All operations. `Call` names them by their position.
    pub operations: Vec<Operation>,
    /// The operation that is executed when the object is made. All data are 0 before it.
    pub setup: u16,
    /// The entries in the order of their numbers, the members of a family one after another.
    pub entries: Vec<Entry>,
    /// Which operations are the visible procedures.
    pub procedures: Vec<u16>,
    /// Which operations are the visible functions.
    pub functions: Vec<u16>,
}
