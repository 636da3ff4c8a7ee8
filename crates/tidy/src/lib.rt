// A tidy copy of a sheet: its records without gaps, and its barred pairs in rising order, each once.
#![tactic(auto)]

ghost use Rattle.std.specs.Prelude.{◌≡◌, ◌≤◌, length};
ghost use Rattle.sheet.specs.Instance.{instance};
ghost use Rattle.records.specs.Told.{told};
ghost use Rattle.tidy.specs.Copy.{tidy_words, copy_length, tidied};
ghost use Rattle.tidy.specs.Answers.{written, tidy_answer, output_after};
ghost use Rattle.tidy.specs.Inner.Put.{put};
ghost use Rattle.tidy.specs.Inner.Limited.{Limited};
ghost use Rattle.tidy.specs.Inner.Counted.{Counted};

use records::Records;
use sheet::{Refusal, Sheet};

mod blocks; // blocks.rt: the header and the first three blocks
mod pairs; // pairs.rt: the fourth block
mod places; // places.rt: where the blocks start and end
mod words; // words.rt: words, written into bytes

use blocks::{put_cabinets, put_header, put_services, put_streams};
use pairs::put_fourth;
use places::Layout;

// Bytes that suffice for every copy.
pub const LONGEST: usize = Sheet::HEADER
    + Sheet::SERVICE * Sheet::MAX_SERVICES
    + Sheet::CABINET * Sheet::MAX_CABINETS
    + Sheet::STREAM * Sheet::MAX_STREAMS
    + Sheet::COUNT
    + Sheet::PAIR * Sheet::MAX_PAIRS;

// Writes a copy of the records, block by block.
fn write(records: &Records, layout: &Layout, output: &mut [u8])
    requires counted { Counted (told records.now) layout.now.services layout.now.cabinets layout.now.streams layout.now.pairs }
    requires room { copy_length (told records.now) ≤ length output.old }
    ensures { output.new ≡ put output.old 0 (tidy_words (told records.now)) }
{
    put_header(output, layout);
    put_services(output, Sheet::HEADER, records);
    put_cabinets(output, layout.cabinets_from(), records);
    put_streams(output, layout.streams_from(), records);
    put_fourth(output, layout.streams_end(), records, layout.pairs);
}

// Writes a copy of the records if there is room.
fn copy(records: &Records, output: &mut [u8]) -> Result<usize, Refusal>
    requires { Limited (told records.now).r (told records.now).s (told records.now).q }
    ensures answer { result ≡ written (copy_length (told records.now)) (length output.old) }
    ensures output { output.new ≡ output_after (tidied (told records.now)) result output.old }
{
    let layout = Layout::of(records);
    let end = layout.length();
    if output.len() < end {
        return Err(Refusal::SHORT_COPY);
    }
    write(records, &layout, output);
    Ok(end)
}

// Writes the tidy copy of a sheet to the front of the output.
pub fn tidy(sheet: &[u8], output: &mut [u8]) -> Result<usize, Refusal>
    ensures answer { result ≡ tidy_answer sheet.now (length output.old) }
    ensures output { output.new ≡ output_after (tidied (instance sheet.now)) result output.old }
{
    let loaded = records::load(sheet)?;
    copy(&loaded.records, output)
}
