//! Laws over the definitions alone. The functions do nothing: their contracts are the laws.

ghost use Rattle.std.specs.Prelude.{◌≡◌, ◌<◌, ◌^◌, ℕ, List, length, map};
ghost use Rattle.std.specs.List.{AllByRecursion, flat_map};
ghost use Rattle.capture_file.specs.Files.{IsCutShort, IsWhole, Stops};
ghost use Rattle.capture_file.specs.Meanings.{Record};
ghost use Rattle.capture_file.specs.Written.{FitsFrame, Frame, SecondParts, PcapHeader, pcap_bytes, record_of_frame};
ghost use Rattle.capture_file.specs.WrittenBlocks.{FitsSection, WrittenSection, pcapng_bytes, records_of_section};
ghost use Rattle.capture_file.specs.declared.fault.FaultKind.{FaultKind};
ghost use Rattle.capture_file.specs.declared.units.Order.{Order as TheOrder};

/// States that bytes are a whole file, or one at fault, or one that is cut short, and only one of these: with one list
/// of records, and the fault or the cut at one offset.
pub fn files_have_one_reading()
    ensures whole { (bytes : List ℕ) (records others : List Record) → IsWhole bytes records
        → IsWhole bytes others → records ≡ others }
    ensures stops { (bytes : List ℕ) (records others : List Record) (kind other : FaultKind)
        (at offset : ℕ) → Stops bytes records kind at → Stops bytes others other offset
        → (records ≡ others) × (kind ≡ other) × (at ≡ offset) }
    ensures cut { (bytes : List ℕ) (records others : List Record) (at offset : ℕ)
        → IsCutShort bytes records at → IsCutShort bytes others offset
        → (records ≡ others) × (at ≡ offset) }
    ensures whole_or_stops { (bytes : List ℕ) (records others : List Record) (kind : FaultKind)
        (at : ℕ) → IsWhole bytes records → Stops bytes others kind at → ⊥ }
    ensures whole_or_cut { (bytes : List ℕ) (records others : List Record) (at : ℕ)
        → IsWhole bytes records → IsCutShort bytes others at → ⊥ }
    ensures cut_or_stops { (bytes : List ℕ) (records others : List Record) (kind : FaultKind)
        (at offset : ℕ) → IsCutShort bytes records offset → Stops bytes others kind at → ⊥ }
{}

/// States that a file that is made of frames is read as these frames: a pcap file of a header and records, in either
/// byte order and with either parts of a second; a pcapng file of sections, which have interfaces with options, enhanced
/// and simple packets, and other blocks.
pub fn written_files_are_read()
    ensures pcap { (order : TheOrder) (parts : SecondParts) (header : PcapHeader)
        (frames : List Frame) → header.above < 2 ^ 16 → AllByRecursion FitsFrame frames
        → IsWhole (pcap_bytes order parts header frames) (map (record_of_frame parts) frames) }
    ensures pcapng { (sections : List WrittenSection) → 0 < length sections
        → AllByRecursion FitsSection sections
        → IsWhole (pcapng_bytes sections) (flat_map records_of_section sections) }
{}
