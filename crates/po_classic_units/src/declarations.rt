// SPDX-License-Identifier: MIT
//! Declarations of entries (9.5.2).
use po_unit::Decl;

/// A single entry in the visible part.
pub(crate) const PUBLIC_ENTRY: Decl = Decl {
    public: true,
    family: false,
    low: 0,
    high: 0,
};

/// A single entry in the private part.
pub(crate) const PRIVATE_ENTRY: Decl = Decl {
    public: false,
    family: false,
    low: 0,
    high: 0,
};
