//! The menus, and the fields whose presence they say (DAP 5.6.0, Attributes and Control messages).

use crate::field;
use crate::kind::{Byte, Extensible, Image, Word};

/// A menu, and how many fields it has, one for each of its bits.
#[derive(Clone, Copy)]
pub(crate) struct Menu(pub Extensible, pub u32);

/// A field that is there where this bit of the menu is set.
#[derive(Clone, Copy)]
pub(crate) struct Optional<K>(pub u32, pub K);

pub(crate) const ATTMENU: Menu = Menu(Extensible(6), 21);

pub(crate) const DATATYPE: Optional<Extensible> = Optional(0, Extensible(2));

pub(crate) const ORG: Optional<Byte> = Optional(1, Byte);

pub(crate) const RFM: Optional<Byte> = Optional(2, Byte);

pub(crate) const RAT: Optional<Extensible> = Optional(3, Extensible(3));

pub(crate) const BLS: Optional<Word> = Optional(4, Word);

pub(crate) const MRS: Optional<Word> = Optional(5, Word);

pub(crate) const ALQ: Optional<Image> = Optional(6, Image(5));

pub(crate) const BKS: Optional<Byte> = Optional(7, Byte);

pub(crate) const FSZ: Optional<Byte> = Optional(8, Byte);

pub(crate) const MRN: Optional<Image> = Optional(9, Image(5));

pub(crate) const RUNSYS: Optional<Image> = Optional(10, Image(40));

pub(crate) const DEQ: Optional<Word> = Optional(11, Word);

pub(crate) const FOP: Optional<Extensible> = Optional(12, field::FOP);

pub(crate) const BSZ: Optional<Byte> = Optional(13, Byte);

pub(crate) const DEV: Optional<Extensible> = Optional(14, Extensible(6));

pub(crate) const SDC: Optional<Extensible> = Optional(15, Extensible(6));

pub(crate) const LRL: Optional<Word> = Optional(16, Word);

pub(crate) const HBK: Optional<Image> = Optional(17, Image(5));

pub(crate) const EBK: Optional<Image> = Optional(18, Image(5));

pub(crate) const FFB: Optional<Word> = Optional(19, Word);

pub(crate) const SBN: Optional<Image> = Optional(20, Image(5));

pub(crate) const CTLMENU: Menu = Menu(Extensible(4), 6);

pub(crate) const RAC: Optional<Byte> = Optional(0, Byte);

pub(crate) const KEY: Optional<Image> = Optional(1, Image(255));

pub(crate) const KRF: Optional<Byte> = Optional(2, Byte);

pub(crate) const ROP: Optional<Extensible> = Optional(3, Extensible(6));

pub(crate) const HSH: Optional<Image> = Optional(4, Image(5));

pub(crate) const DISPLAY: Optional<Extensible> = Optional(5, field::DISPLAY);
