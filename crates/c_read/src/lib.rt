// The call that reads a page file, as C makes it.
#![tactic(auto)]

ghost use Rattle.std.specs.Prelude.{◌≡◌};
ghost use Rattle.c_read.specs.ReadPage.{page_numbers, exported_page};

use c_check::{check_setting_of, is_setting};
use c_refusal::refusal_code;
use reader_progress::Page;
use refusal::Reason;

// What a page file says, as five numbers.
fn page_numbers(page: Page) -> [u64; 5]
    ensures { result ≡ page_numbers page }
{
    [
        page.octets as u64,
        page.lines as u64,
        usize::from(page.settings) as u64,
        page.bits.0 as u64,
        page.columns.0 as u64,
    ]
}

// Reads a page file (`reader::read_page`). The answer is the octets of the file that were used, lines, settings, data bits and columns.
pub fn read_page(file: &[u8], check: &[u64; 5], out: &mut [u8], answer: &mut [u64; 5]) -> u64
    ensures { (result, out.new, answer.new) ≡ exported_page file.now check.now out.old answer.old }
{
    if !is_setting(check) {
        return Reason::RequestNotAllowed.into();
    }
    match reader::read_page(file, check_setting_of(check), out) {
        Ok(page) => {
            *answer = page_numbers(page);
            0
        }
        Err(refusal) => refusal_code(refusal),
    }
}
