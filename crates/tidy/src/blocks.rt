// The header and the first three blocks of a copy.
ghost use Rattle.std.specs.Prelude.{◌≡◌, ◌+◌, ◌*◌, ◌≤◌, length};
ghost use Rattle.sheet.specs.Layout.{header_size};
ghost use Rattle.records.specs.Told.{told};
ghost use Rattle.tidy.specs.Words.{concat_below};
ghost use Rattle.tidy.specs.Copy.{header_words, service_words, cabinet_words, stream_words};
ghost use Rattle.tidy.specs.Inner.Put.{put};

use crate::places::Layout;
use crate::words::{put_records, put_words};
use records::Records;
use sheet::Sheet;

// Writes the header of a copy with such counts.
pub(crate) fn put_header(out: &mut [u8], layout: &Layout)
    requires { header_size ≤ length out.old }
    ensures { out.new ≡ put out.old 0 (header_words layout.now.services layout.now.cabinets layout.now.streams layout.now.pairs) }
{
    put_words(
        out,
        0,
        &[
            layout.services as u16,
            layout.cabinets as u16,
            layout.streams as u16,
            Sheet::HEADER as u16,
            layout.cabinets_from() as u16,
            layout.streams_from() as u16,
            layout.length() as u16,
            layout.fourth_from() as u16,
        ],
    );
}

#[tactic(auto, unfolding(records::specs::Told::told, crate::specs::Inner::Columns::row))]
pub(crate) fn put_services(out: &mut [u8], at: usize, records: &Records)
    requires { at + 2 * (told records.now).r ≤ length out.old }
    ensures { out.new ≡ put out.old at (concat_below (told records.now).r (service_words (told records.now))) }
{
    put_records(out, at, &[&records.demand], records.services);
}

#[tactic(auto, unfolding(records::specs::Told::told, crate::specs::Inner::Columns::row))]
pub(crate) fn put_cabinets(out: &mut [u8], at: usize, records: &Records)
    requires { at + 14 * (told records.now).s ≤ length out.old }
    ensures { out.new ≡ put out.old at (concat_below (told records.now).s (cabinet_words (told records.now))) }
{
    put_records(
        out,
        at,
        &[
            &records.parent,
            &records.capacity,
            &records.price,
            &records.up_capacity,
            &records.up_price,
            &records.down_capacity,
            &records.down_price,
        ],
        records.cabinets,
    );
}

#[tactic(auto, unfolding(records::specs::Told::told, crate::specs::Inner::Columns::row))]
pub(crate) fn put_streams(out: &mut [u8], at: usize, records: &Records)
    requires { at + 6 * (told records.now).q ≤ length out.old }
    ensures { out.new ≡ put out.old at (concat_below (told records.now).q (stream_words (told records.now))) }
{
    put_records(
        out,
        at,
        &[&records.from, &records.to, &records.load],
        records.streams,
    );
}
