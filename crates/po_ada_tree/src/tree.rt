// SPDX-License-Identifier: MIT
//! The syntax tree of a text: what is written, with the place of each part, and not what it means.

use crate::fault::Fault;
use crate::names::Names;

/// A name that stands at a place.
#[derive(Clone, Copy, Debug, PartialEq, Eq)]
pub struct Name {
    /// Its number in the table of names.
    pub number: u32,
    pub place: usize,
}

/// An operator between two operands (4.5).
#[derive(Clone, Copy, Debug, PartialEq, Eq)]
pub enum Infix {
    And,
    AndThen,
    Or,
    OrElse,
    Xor,
    Equal,
    Unequal,
    Less,
    AtMost,
    Greater,
    AtLeast,
    Plus,
    Minus,
    Concatenate,
    Times,
    Divide,
    Mod,
    Rem,
    Power,
}

/// An operator before its operand (4.5).
#[derive(Clone, Copy, Debug, PartialEq, Eq)]
pub enum Prefix {
    Plus,
    Minus,
    Abs,
    Not,
}

/// An attribute that the subset has (4.1.4).
#[derive(Clone, Copy, Debug, PartialEq, Eq)]
pub enum Attribute {
    Count,
    First,
    Image,
    Last,
    Length,
    Max,
    Min,
    Modulus,
    Old,
    Pos,
    Pred,
    Range,
    Succ,
    Val,
    Value,
}

/// An expression, and how high its tree is: at most `MOST_LEVELS`.
#[cycle(expressions)]
#[derive(Debug, Drop)]
pub struct Expression {
    pub place: usize,
    pub height: usize,
    pub form: Form,
}

/// What an expression is (4.4).
#[cycle(expressions)]
#[derive(Debug, Drop)]
pub enum Form {
    Number(u64),
    Character(u8),
    /// A string: the places of its beginning and its end between the quotes.
    Text(usize, usize),
    Null,
    /// `<>`
    Anything,
    /// `@`, the target of the assignment (5.2.1).
    Target,
    Name(u32),
    /// `A.B`
    Selected(Box<Expression>, Name),
    /// `A (..)`: an element, a call, a conversion or an entry of a family.
    Applied(Box<Expression>, Vec<Association>),
    /// `A'B`, `A'B (..)`
    Attribute(Box<Expression>, Attribute, Vec<Association>),
    /// `T'(..)`
    Qualified(Box<Expression>, Box<Expression>),
    Aggregate(Vec<Association>),
    Prefix(Prefix, Box<Expression>),
    Infix(Infix, Box<Expression>, Box<Expression>),
    /// `A in ..`
    Member(Box<Expression>, Vec<Choice>),
    /// The arms, and what comes after `else`.
    If(Vec<Arm>, Option<Box<Expression>>),
    Case(Box<Expression>, Vec<CaseArm>),
    /// Whether it is `for all`, and over the elements of an array.
    Quantified(bool, Name, Iteration, Box<Expression>),
    /// The exception and its message.
    Raise(Box<Expression>, Option<Box<Expression>>),
}

/// A condition of an if expression and its value (4.5.7).
#[cycle(expressions)]
#[derive(Debug, Drop)]
pub struct Arm {
    pub condition: Expression,
    pub value: Expression,
}

/// The choices of an alternative of a case expression and its value (4.5.7).
#[cycle(expressions)]
#[derive(Debug, Drop)]
pub struct CaseArm {
    pub place: usize,
    pub choices: Vec<Choice>,
    pub value: Expression,
}

/// A part of an aggregate or of a list of actual parameters: `A`, `B => A` (4.3, 6.4).
#[cycle(expressions)]
#[derive(Debug, Drop)]
pub struct Association {
    pub place: usize,
    pub choices: Vec<Choice>,
    pub value: Expression,
}

/// A choice, or a discrete range (3.6.1, 3.8.1).
#[cycle(expressions)]
#[derive(Debug, Drop)]
pub enum Choice {
    Value(Expression),
    /// `A .. B`
    Range(Expression, Expression),
    /// `T range A .. B`
    Constrained(Expression, Expression, Expression),
    Others(usize),
}

/// What a loop or a quantified expression goes over (5.5).
#[cycle(expressions)]
#[derive(Debug, Drop)]
pub enum Iteration {
    /// `in`, and whether `reverse`.
    In(bool, Box<Choice>),
    /// `of`, and whether `reverse`.
    Of(bool, Box<Expression>),
}

/// A subtype: a type's name and a constraint (3.2.2).
#[derive(Debug, Drop)]
pub struct Subtype {
    pub mark: Expression,
    pub constraint: Constraint,
}

/// A constraint (3.2.2).
#[derive(Debug, Drop)]
pub enum Constraint {
    Absent,
    /// `range ..`
    Range(Choice),
    /// `(..)`
    Index(Vec<Choice>),
}

/// An index of an array type (3.6).
#[derive(Debug, Drop)]
pub enum ArrayIndex {
    Constrained(Choice),
    /// `T range <>`
    Open(Expression),
}

/// Names of variables, components or parameters with one subtype and one value.
#[derive(Debug, Drop)]
pub struct Variables {
    pub names: Vec<Name>,
    pub constant: bool,
    pub subtype: Subtype,
    pub value: Option<Expression>,
}

/// What a type is (3.2.1).
#[derive(Debug, Drop)]
pub enum TypeForm {
    Range(Expression, Expression),
    Modular(Expression),
    Enumeration(Vec<Name>),
    Array(Vec<ArrayIndex>, Subtype),
    Record(Vec<Variables>),
    /// `new T`
    Derived(Subtype),
    /// A generic formal type, of which only assignment and equality are known, or of a class (12.5).
    Formal,
}

/// A pragma (2.8).
#[derive(Debug, Drop)]
pub struct Pragma {
    pub name: Name,
    pub arguments: Vec<Association>,
}

/// A declaration that isn't of an operation (3.1).
#[derive(Debug, Drop)]
pub enum Declaration {
    Type(Name, TypeForm),
    Subtype(Name, Subtype),
    Variables(Variables),
    /// Named numbers (3.3.2).
    Numbers(Vec<Name>, Expression),
    Exceptions(Vec<Name>),
    Pragma(Pragma),
}

/// A statement (5.1).
#[cycle(statements)]
#[derive(Debug, Drop)]
pub struct Statement {
    pub place: usize,
    pub action: Action,
}

/// What a statement does (5.1).
#[cycle(statements)]
#[derive(Debug, Drop)]
pub enum Action {
    Null,
    Assign(Expression, Expression),
    Call(Expression),
    If(Vec<Branch>, Vec<Statement>),
    Case(Expression, Vec<Alternative>),
    /// The loop's name, what it goes over, its statements.
    Loop(Option<Name>, LoopHead, Vec<Statement>),
    /// The loop's name, and the condition.
    Exit(Option<Name>, Option<Expression>),
    Return(Option<Expression>),
    ExtendedReturn(Variables, Sequence),
    /// The exception and its message; no exception raises the handler's again.
    Raise(Option<Expression>, Option<Expression>),
    /// The entry, and whether `with abort`.
    Requeue(Expression, bool),
    Block(Vec<Declaration>, Sequence),
    Pragma(Pragma),
}

/// A condition and the statements after `then` (5.3).
#[cycle(statements)]
#[derive(Debug, Drop)]
pub struct Branch {
    pub condition: Expression,
    pub statements: Vec<Statement>,
}

/// An alternative of a case statement (5.4).
#[cycle(statements)]
#[derive(Debug, Drop)]
pub struct Alternative {
    pub place: usize,
    pub choices: Vec<Choice>,
    pub statements: Vec<Statement>,
}

/// How often a loop is run (5.5).
#[derive(Debug, Drop)]
pub enum LoopHead {
    Forever,
    While(Expression),
    For(Name, Iteration),
}

/// Statements and their handlers of exceptions (11.2).
#[cycle(statements)]
#[derive(Debug, Drop)]
pub struct Sequence {
    pub statements: Vec<Statement>,
    pub handlers: Vec<Handler>,
}

/// A handler: its exceptions, none for `others`, and its statements (11.2).
#[cycle(statements)]
#[derive(Debug, Drop)]
pub struct Handler {
    pub place: usize,
    pub exceptions: Vec<Expression>,
    pub statements: Vec<Statement>,
}

/// An aspect and its value (13.1.1).
#[derive(Debug, Drop)]
pub struct Aspect {
    pub name: Name,
    pub value: Option<Expression>,
}

/// What an operation is (9.4).
#[derive(Clone, Copy, Debug, PartialEq, Eq)]
pub enum Kind {
    Entry,
    Procedure,
    Function,
}

/// A parameter's mode (6.1).
#[derive(Clone, Copy, Debug, PartialEq, Eq)]
pub enum Mode {
    In,
    Out,
    InOut,
}

/// Parameters with one mode, one subtype and one default (6.1).
#[derive(Debug, Drop)]
pub struct Parameters {
    pub mode: Mode,
    pub variables: Variables,
}

/// An entry's index: its range, and in a body its name (9.5.2).
#[derive(Debug, Drop)]
pub struct Family {
    pub name: Option<Name>,
    pub range: Choice,
}

/// The declaration of an entry, a procedure or a function, or the head of its body (9.4).
#[derive(Debug, Drop)]
pub struct Profile {
    pub kind: Kind,
    pub name: Name,
    pub family: Option<Family>,
    pub parameters: Vec<Parameters>,
    pub returns: Option<Subtype>,
    pub aspects: Vec<Aspect>,
}

/// The body of an entry, a procedure or a function.
#[derive(Debug, Drop)]
pub struct Body {
    pub profile: Profile,
    pub barrier: Option<Expression>,
    pub content: Content,
}

/// What a body does.
#[derive(Debug, Drop)]
pub enum Content {
    /// Only declared: the body comes later.
    Declared,
    /// An expression function (6.8).
    Value(Expression),
    Statements(Vec<Declaration>, Sequence),
}

/// An item of a protected unit's declaration.
#[derive(Debug, Drop)]
pub enum Part {
    Operation(Profile),
    Declaration(Declaration),
}

/// The declaration of a protected type or object (9.4).
#[derive(Debug, Drop)]
pub struct Protected {
    pub name: Name,
    pub is_type: bool,
    pub discriminants: Vec<Variables>,
    pub public: Vec<Part>,
    pub private: Vec<Part>,
}

/// The body of a protected type or object (9.4).
#[derive(Debug, Drop)]
pub struct ProtectedBody {
    pub name: Name,
    pub bodies: Vec<Body>,
}

/// An item of a text, outside of protected units. Packages are opened: their items stand for themselves.
#[derive(Debug, Drop)]
pub enum Item {
    Package(Name),
    Declaration(Declaration),
    Operation(Body),
    Protected(Protected),
    ProtectedBody(ProtectedBody),
    Unread(Unread),
}

/// A declaration outside of protected units that has what isn't in the subset: no protected unit may use it.
#[derive(Debug, Drop)]
pub struct Unread {
    pub name: Name,
    /// What was found first that isn't in the subset.
    pub fault: Option<Fault>,
}

/// A text that was read.
#[derive(Drop)]
pub struct Text {
    pub items: Vec<Item>,
    pub names: Names,
}
