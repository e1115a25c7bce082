//! Laws over the definitions alone. The functions do nothing: their contracts are the laws.

ghost use Rattle.std.specs.Prelude.{◌≡◌, ◌≢◌, ◌<◌, ◌≤◌, ◌+◌, ◌^◌, ◌++◌, ℕ, List, Option, Some, Ok, Err, false, length, take};
ghost use Rattle.dap_listing.specs.Listing.{packet_limit};
ghost use Rattle.std.specs.List.{AllByRecursion, list_any};
ghost use Rattle.std.specs.Str.Lines.{lines};
ghost use Rattle.dap_fields.specs.Spelling.{AreBytes};
ghost use Rattle.capture_file.specs.Meanings.{Record};
ghost use Rattle.capture_file.specs.declared.meaning.Time.{Time};
ghost use Rattle.decnet_frames.specs.Founds.{founds_of_file};
ghost use Rattle.decnet_frames.specs.Frames.{nsp_packet_of};
ghost use Rattle.decnet_frames.specs.Made.{Envelope, FitsData, IsControl, IsEnvelope, IsOtherType, IsPadding, MadeData, bytes_of_frame, bytes_to_type, message_of_control, message_of_data, node_of_address, packet_of_data, routing_type};
ghost use Rattle.decnet_frames.specs.HexLines.{all_hex_lines};
ghost use Rattle.decnet_frames.specs.Lines.{is_refused, packets_of_lines};
ghost use Rattle.decnet_frames.specs.Origins.{comment_text, origin_of};
ghost use Rattle.decnet_frames.specs.Times.{frame_text};
ghost use Rattle.decnet_frames.specs.declared.addresses.Nodes.{Nodes as TheNodes};
ghost use Rattle.decnet_frames.specs.declared.ways.Between.{Between as TheBetween};
ghost use Rattle.decnet_frames.specs.declared.packet.Passed.TheVariants.{CutShort, OtherFrame, OtherMessage, ToItself, TooLong};

/// States that a comment that is written before a packet is read as what it was made of: its frame's number and time,
/// and its nodes.
pub fn comments_are_read()
    ensures { (number : ℕ) (time : Option Time) (nodes : TheNodes) → number < 2 ^ 64
        → nodes.source < 2 ^ 16 → nodes.destination < 2 ^ 16
        → origin_of (comment_text (frame_text number time) nodes)
        ≡ Some (record { frame = frame_text number time; nodes = nodes }) }
{}

/// States that the lines that `HexLines` makes of a file's packets are read back: none of them is bad, and their
/// packets are those of the file, in order, with their signs, frames, nodes and bytes.
pub fn written_lines_are_read()
    ensures clean { (between : TheBetween) (records : List Record)
        → AllByRecursion (λ r. AreBytes r.bytes) records
        → list_any is_refused (lines (all_hex_lines (founds_of_file between records))) ≡ false }
    ensures read { (between : TheBetween) (records : List Record)
        → AllByRecursion (λ r. AreBytes r.bytes) records
        → packets_of_lines (all_hex_lines (founds_of_file between records))
        ≡ founds_of_file between records }
{}

/// States that an Ethernet frame is read as what it was made of: two stations, any tags, and a routing message, which
/// has data of one node to another, with padding or without, after a long header or a short one; or control, as hello.
/// Frames of another type are passed over, and frames of which not all of the message was captured.
pub fn made_frames_are_read()
    ensures data { (e : Envelope) (d : MadeData) → IsEnvelope e → FitsData d
        → length d.packet ≤ packet_limit
        → node_of_address d.source ≢ node_of_address d.destination
        → nsp_packet_of (bytes_of_frame e (message_of_data d)) ≡ Ok (packet_of_data d) }
    ensures too_long { (e : Envelope) (d : MadeData) → IsEnvelope e → FitsData d
        → packet_limit < length d.packet → length (message_of_data d) < 2 ^ 16
        → nsp_packet_of (bytes_of_frame e (message_of_data d)) ≡ Err TooLong }
    ensures to_itself { (e : Envelope) (d : MadeData) → IsEnvelope e → FitsData d
        → length d.packet ≤ packet_limit
        → node_of_address d.source ≡ node_of_address d.destination
        → nsp_packet_of (bytes_of_frame e (message_of_data d)) ≡ Err ToItself }
    ensures control { (e : Envelope) (padding : Option (List ℕ)) (flags : ℕ) (rest : List ℕ)
        → IsEnvelope e → IsPadding padding → IsControl flags
        → length (message_of_control padding flags rest) < 2 ^ 16
        → nsp_packet_of (bytes_of_frame e (message_of_control padding flags rest))
        ≡ Err OtherMessage }
    ensures other_type { (e : Envelope) (kind : ℕ) (rest : List ℕ) → IsEnvelope e
        → IsOtherType kind → nsp_packet_of (bytes_to_type e kind ++ rest) ≡ Err OtherFrame }
    ensures cut_short { (e : Envelope) (message : List ℕ) (count : ℕ) → IsEnvelope e
        → length message < 2 ^ 16 → length (bytes_to_type e routing_type) ≤ count
        → count < length (bytes_to_type e routing_type) + 2 + length message
        → nsp_packet_of (take count (bytes_of_frame e message)) ≡ Err CutShort }
{}
