// SPDX-License-Identifier: MIT
//! The names of an object's operations, types and exceptions.

/// How a script writes the values of a subtype.
#[derive(Clone, Copy, Debug, PartialEq, Eq)]
pub enum Form {
    /// As a number: a signed or modular integer type (3.5.4).
    Integer,
    /// As `False` or `True` (3.5.3).
    Boolean,
    /// As a literal of the enumeration with this number (3.5.1).
    Enumeration(u16),
}

/// An enumeration type (3.5.1).
#[derive(Debug, Drop)]
pub struct Enumeration {
    /// Its literals in the order of their positions.
    pub literals: Vec<String>,
}

/// A discrete subtype (3.5).
#[derive(Debug, Drop)]
pub struct Subtype {
    /// The subtype's name.
    pub name: String,
    pub form: Form,
    /// Its first value: a number, or a position.
    pub low: i128,
    /// Its last value.
    pub high: i128,
}

/// Discrete types and subtypes.
#[derive(Debug, Drop)]
pub struct Types {
    /// The enumeration types of the subtypes.
    pub enumerations: Vec<Enumeration>,
    pub subtypes: Vec<Subtype>,
}

/// The mode of a parameter (6.1).
#[derive(Clone, Copy, Debug, PartialEq, Eq)]
pub enum Mode {
    In,
    InOut,
    Out,
}

/// A parameter of an operation. Its position in the list of parameters is the slot of its value.
#[derive(Debug, Drop)]
pub struct Parameter {
    /// The parameter's name.
    pub name: String,
    pub mode: Mode,
    /// The number of its subtype.
    pub subtype: u16,
    /// The value of its default expression (6.1), which a script can leave out.
    pub default: Option<i128>,
}

/// A protected procedure or function (9.5.1), or the part of an entry that is like one.
#[derive(Debug, Drop)]
pub struct Operation {
    /// Its name.
    pub name: String,
    /// Its parameters, at most 8.
    pub parameters: Vec<Parameter>,
    /// The subtype of a function's result, which is in slot 0.
    pub result: Option<u16>,
}

/// The index range of an entry family (9.5.2).
#[derive(Clone, Copy, Debug, PartialEq, Eq)]
pub struct Family {
    /// The subtype by which a script writes an index.
    pub subtype: u16,
    /// The first index.
    pub low: i32,
    /// The last index; if it is below the first, the family has no member.
    pub high: i32,
}

/// An entry, or an entry family (9.5.2).
#[derive(Debug, Drop)]
pub struct Entry {
    /// Its name and its parameters.
    pub operation: Operation,
    /// Whether it is declared in the visible part (9.4).
    pub public: bool,
    /// The family's index range, if it is a family.
    pub family: Option<Family>,
    /// Its precondition, if it has one (6.1.1): the number of a function of the program, which takes the entry's parameters, and
    /// whose result is Boolean. No script can name it: its number is none of those that `ObjectNames.functions` have.
    pub precondition: Option<u16>,
}

/// A variable of an object (3.3.1), or a component of one: `Count`, `Items(2)`, `Slots(1).Full`.
#[derive(Debug, Drop)]
pub struct Variable {
    /// Its name, as a function of the object can write it.
    pub name: String,
    pub form: Form,
    /// The position of its value among the object's data.
    pub cell: u16,
}

/// A discriminant of a protected type (3.7).
#[derive(Debug, Drop)]
pub struct Discriminant {
    /// The discriminant's name.
    pub name: String,
    /// The number of its subtype.
    pub subtype: u16,
    /// The value of its default expression (3.7).
    pub default: Option<i128>,
}

/// What is known of a protected type or object before its discriminants have values.
#[derive(Debug, Drop)]
pub struct Heading {
    /// The name of the protected type or object.
    pub unit: String,
    /// The subtypes of the discriminants.
    pub types: Types,
    /// The discriminants in order.
    pub discriminants: Vec<Discriminant>,
}

/// What scripts know of an object.
#[derive(Debug, Drop)]
pub struct ObjectNames {
    /// The name of the protected type or object.
    pub unit: String,
    /// The subtypes of parameters, results and families.
    pub types: Types,
    /// The entries and families in the order of their declarations, the private ones among them.
    pub entries: Vec<Entry>,
    /// The visible procedures, in the order of their numbers in the program.
    pub procedures: Vec<Operation>,
    /// The visible functions, in the order of their numbers in the program.
    pub functions: Vec<Operation>,
    /// The variables in the order of their declarations. An array or a record stands for its components, if it isn't large.
    pub variables: Vec<Variable>,
    /// The exceptions that the text declares, from the number `FIRST_DECLARED` of `po_program` on.
    pub exceptions: Vec<String>,
    /// The messages of exceptions that aren't numbers, by their positions.
    pub messages: Vec<String>,
    /// How many calls each queue can have, if the text says so: the aspect Max_Queue_Length of all entries (D.4).
    pub max_queue: Option<u64>,
}
