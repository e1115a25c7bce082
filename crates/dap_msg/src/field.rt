//! The fields that are in no menu, by their kind and limit (DAP 5.6.0, message formats).

use crate::kind::{Extensible, Image};

/// FLAGS, of a header.
pub(crate) const FLAGS: Extensible = Extensible(5);

/// SYSCAP, of a Configuration.
pub(crate) const SYSCAP: Extensible = Extensible(12);

/// FOP, of an Access Complete and of Attributes.
pub(crate) const FOP: Extensible = Extensible(6);

/// The fields of an Access.
pub(crate) const ACCOPT: Extensible = Extensible(5);

pub(crate) const FILESPEC: Image = Image(255);

pub(crate) const FAC: Extensible = Extensible(3);

pub(crate) const SHR: Extensible = Extensible(3);

pub(crate) const PASSWORD: Image = Image(40);

/// DISPLAY, of an Access and of a Control.
pub(crate) const DISPLAY: Extensible = Extensible(4);

/// RECNUM, of a Data and of a Status.
pub(crate) const RECNUM: Image = Image(8);

/// The other images of a Status.
pub(crate) const RFA: Image = Image(8);

pub(crate) const STV: Image = Image(8);
