// A sheet that is being read, and what the tests that it has passed say of it: refusals 4 to 9, 18 and 19 in their order.
#![tactic(auto, unfolding(crate::specs::Reading::rules, crate::specs::Reading::answered, crate::specs::Refusals::first_applying, crate::specs::Refusals::refusal), using(crate::proofs::Passed::inside, crate::proofs::Passed::pairs_inside))]

ghost use Rattle.std.specs.Prelude.{◌≡◌, ◌≤◌, length, drop};
ghost use Rattle.sheet.specs.Inner.Within.{Bounded, Inside};
ghost use Rattle.sheet.specs.Layout.{header_size, header};
ghost use Rattle.sheet.specs.Reading.{rules, answered};
ghost use Rattle.sheet.specs.Refusals.{first_applying};

use crate::{Refusal, Sheet};

// The bytes and what their header says, where refusals 1 and 2 do not apply.
#[derive(Clone, Copy)]
pub(crate) struct Draft<'a> {
    pub bytes: &'a [u8],
    pub sheet: Sheet,
    ghost whole: { header_size ≤ length bytes.now },
    ghost by_header: { sheet ≡ header bytes.now },
    ghost bounded: { Bounded sheet },
}

// Such a sheet where refusal 4 does not apply either: its first three blocks lie within the bytes.
#[derive(Clone, Copy)]
pub(crate) struct Blocks<'a> {
    pub draft: Draft<'a>,
    ghost inside: { Inside draft.sheet (length draft.bytes.now) },
}

// Each group of refusals is a function of its own in what is built, too (`inline(never)`): as parts of one, each turn of a loop over a block would also put in
// place what the refusal after it answers, and a sheet of 2,000 pairs take three times as long to read.
impl Draft<'_> {
    // Refusals 4 and 5, where 1 to 3 do not apply.
    #[inline(never)]
    pub(crate) fn read_blocks(&self) -> Result<Sheet, Refusal>
        ensures { result ≡ answered (first_applying (drop 3 (rules self.now.bytes.now))) self.now.sheet }
    {
        if self.any_outside() {
            return Err(Refusal::BLOCK_OUTSIDE);
        }
        if self.any_share() {
            return Err(Refusal::BLOCKS_SHARE);
        }
        Blocks { draft: *self }.read_records()
    }

    // Refusals 18 and 19, where 1 to 9 do not apply.
    #[inline(never)]
    fn read_pairs(&self) -> Result<Sheet, Refusal>
        ensures { result ≡ answered (first_applying (drop 9 (rules self.now.bytes.now))) self.now.sheet }
    {
        if self.is_pairs_block_wrong() {
            return Err(Refusal::WRONG_PAIRS_BLOCK);
        }
        if self.is_pair_wrong() {
            return Err(Refusal::WRONG_PAIR);
        }
        Ok(self.sheet)
    }
}

impl Blocks<'_> {
    // Refusals 6 to 9, where 1 to 5 do not apply.
    fn read_records(&self) -> Result<Sheet, Refusal>
        ensures { result ≡ answered (first_applying (drop 5 (rules self.now.draft.bytes.now))) self.now.draft.sheet }
    {
        if self.is_amount_too_high() {
            return Err(Refusal::AMOUNT_TOO_HIGH);
        }
        if self.is_parent_wrong() {
            return Err(Refusal::WRONG_PARENT);
        }
        if self.is_end_wrong() {
            return Err(Refusal::WRONG_ENDS);
        }
        if self.is_root_linked() {
            return Err(Refusal::ROOT_LINKED);
        }
        self.draft.read_pairs()
    }
}
