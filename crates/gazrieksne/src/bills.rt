// The entry point of the bill.
ghost use Rattle.std.specs.Prelude.{◌≡◌, length};
ghost use Rattle.sheet.specs.Instance.{instance};
ghost use Rattle.embedding.specs.Plan.{place};
ghost use Rattle.bill.specs.Answers.{number, billed, lines_after};
ghost use Rattle.gazrieksne.specs.Bills.{tariff_of, bill_answer};

use bill::sums::Bill;
use bill::tariff::Tariff;
use sheet::Refusal;

// The refusal's number, 0 for none; group, net, tax and total are written.
fn tell(billed: Result<Bill, Refusal>, answer: &mut [u64; 4]) -> u64
    ensures refusal { result ≡ number billed }
    ensures answer { answer.new ≡ bill_answer billed }
{
    match billed {
        Ok(bill) => {
            *answer = [0, bill.net, bill.tax, bill.total];
            0
        }
        Err(refusal) => {
            *answer = [refusal.group(), 0, 0, 0];
            u64::from(refusal.number())
        }
    }
}

// The call that makes a bill, with its tariff and its answer as numbers.
#[unsafe(no_mangle)]
pub extern "C" fn gz_bill(
    bytes: &[u8],
    plan: &[u16],
    block_price: u64,
    slot_price: u64,
    tax_rate: u64,
    lines: &mut [u64],
    answer: &mut [u64; 4],
) -> u64
    ensures refusal { result ≡ number (billed bytes.now plan.now (tariff_of block_price slot_price tax_rate) (length lines.old)) }
    ensures answer { answer.new ≡ bill_answer (billed bytes.now plan.now (tariff_of block_price slot_price tax_rate) (length lines.old)) }
    ensures lines { lines.new ≡ lines_after (instance bytes.now) (place plan.now) (tariff_of block_price slot_price tax_rate) (billed bytes.now plan.now (tariff_of block_price slot_price tax_rate) (length lines.old)) lines.old }
{
    let tariff = Tariff {
        block_price,
        slot_price,
        tax_rate,
    };
    let billed = bill::bill(bytes, plan, tariff, lines);
    tell(billed, answer)
}
