//! Laws over the definitions alone. Each function only calls other laws: its contract is the law.

ghost use Rattle.std.specs.Prelude.{◌≡◌, ◌++◌, ℕ, List, false};
ghost use Rattle.std.specs.List.{AllByRecursion};
ghost use Rattle.dap_fields.specs.Spelling.{AreBytes};
ghost use Rattle.capture_file.specs.Meanings.{Record};
ghost use Rattle.decnet_frames.specs.Founds.{founds_of_file};
ghost use Rattle.decnet_frames.specs.declared.ways.Between.{Between as TheBetween};
ghost use Rattle.decnet_frames.specs.declared.ways.Between.TheVariants.{All};
ghost use Rattle.cap_cli.specs.Forms.{form_of};
ghost use Rattle.cap_cli.specs.Running.{FileHas, Founds, LinesHave};
ghost use Rattle.cap_cli.specs.Tasks.{AreHexLines, TextsOf};
ghost use Rattle.cap_cli.specs.declared.form.Form.TheVariants.{Lines};
ghost use Rattle.cap_cli.specs.declared.telling.FileEnd.{FileEnd};
ghost use Rattle.cap_cli.specs.declared.telling.LinesEnd.{LinesEnd as TheEnd};
ghost use Rattle.cap_cli.specs.declared.words.Options.{Options};

use capture_file::files_have_one_reading;
use dap_follow::packets_have_one_listing;
use decnet_frames::written_lines_are_read;

/// States that what `--lines` writes of a capture file is an input of lines, in which none is bad, with the packets of
/// the file. So `dapcap --lines FILE | dapcap` lists what `dapcap FILE` lists, with any options.
pub fn lines_of_a_file_are_listed_as_the_file()
    ensures form { (between : TheBetween) (records : List Record) (written rest : List ℕ)
        → AreHexLines (founds_of_file between records) written rest
        → form_of (written ++ rest) ≡ Lines }
    ensures packets { (between : TheBetween) (records : List Record) (written rest : List ℕ)
        (end : TheEnd) (founds : Founds) → AllByRecursion (λ r. AreBytes r.bytes) records
        → AreHexLines (founds_of_file between records) written rest
        → LinesHave All (written ++ rest) end founds
        → (founds ≡ founds_of_file between records) × (end.is_bad ≡ false) }
{
    written_lines_are_read();
}

/// States that an input has one text: a file, of bytes, ends in one way and has one list of packets, and so do lines;
/// and with the same options these packets have one text, as they come and at the end. So the text is the same however
/// the input is read.
pub fn inputs_have_one_text()
    ensures file { (options : Options) (input : List ℕ) (end other : FileEnd)
        (founds others : Founds) (written rest text ends : List ℕ) → AreBytes input
        → FileHas options.between input end founds → TextsOf options founds written rest
        → FileHas options.between input other others → TextsOf options others text ends
        → (end ≡ other) × (founds ≡ others) × (written ≡ text) × (rest ≡ ends) }
    ensures lines { (options : Options) (input : List ℕ) (end other : TheEnd)
        (founds others : Founds) (written rest text ends : List ℕ)
        → LinesHave options.between input end founds → TextsOf options founds written rest
        → LinesHave options.between input other others → TextsOf options others text ends
        → (end ≡ other) × (founds ≡ others) × (written ≡ text) × (rest ≡ ends) }
{
    files_have_one_reading();
    written_lines_are_read();
    packets_have_one_listing();
}
