// What C and other languages call; include/dacom450.h describes it. A slice is a pointer and a length, an array a pointer to a struct of so
// many uint64_t; every other parameter is a u64, so that any value can be handed in and judged.
#![tactic(auto)]

ghost use Rattle.std.specs.Prelude.{◌≡◌};
ghost use Rattle.c_part.specs.Part.{exported_part};
ghost use Rattle.c_read.specs.ReadPage.{exported_page};
ghost use Rattle.c_write.specs.WritePage.{exported_writing};
ghost use Rattle.c_words.specs.RunWords.{exported_words, exported_bitmap};
ghost use Rattle.c_capture.specs.Captures.{exported_finding, exported_records};

#[unsafe(no_mangle)]
pub extern "C" fn dacom_read_part(
    octets: &[u8],
    count: u64,
    state: u64,
    black: u64,
    white: u64,
    x: u64,
    out: &mut [u8],
    answer: &mut [u64; 5],
) -> u64
    ensures { (result, out.new, answer.new) ≡ exported_part octets.now count state (record { lengths = record { black = black; white = white }; x = x }) out.old answer.old }
{
    c_part::read_part(octets, count, state, black, white, x, out, answer)
}

#[unsafe(no_mangle)]
pub extern "C" fn dacom_read_page(
    file: &[u8],
    check: &[u64; 5],
    out: &mut [u8],
    answer: &mut [u64; 5],
) -> u64
    ensures { (result, out.new, answer.new) ≡ exported_page file.now check.now out.old answer.old }
{
    c_read::read_page(file, check, out, answer)
}

#[unsafe(no_mangle)]
pub extern "C" fn dacom_write_page(
    bitmap: &[u8],
    settings: u64,
    rate: u64,
    check: &[u64; 5],
    out: &mut [u8],
    answer: &mut [u64; 1],
) -> u64
    ensures { (result, out.new, answer.new) ≡ exported_writing bitmap.now settings rate check.now out.old answer.old }
{
    c_write::write_page(bitmap, settings, rate, check, out, answer)
}

#[unsafe(no_mangle)]
pub extern "C" fn dacom_words_of_bitmap(
    bitmap: &[u8],
    out: &mut [i16],
    answer: &mut [u64; 1],
) -> u64
    ensures { (result, out.new, answer.new) ≡ exported_words bitmap.now out.old answer.old }
{
    c_words::words_of_bitmap(bitmap, out, answer)
}

#[unsafe(no_mangle)]
pub extern "C" fn dacom_bitmap_of_words(words: &[i16], out: &mut [u8], answer: &mut [u64; 2]) -> u64
    ensures { (result, out.new, answer.new) ≡ exported_bitmap words.now out.old answer.old }
{
    c_words::bitmap_of_words(words, out, answer)
}

#[unsafe(no_mangle)]
pub extern "C" fn dacom_find_frames(
    octets: &[u8],
    check: &[u64; 5],
    list: &mut [u64],
    answer: &mut [u64; 1],
) -> u64
    ensures { (result, list.new, answer.new) ≡ exported_finding octets.now check.now list.old answer.old }
{
    c_capture::find_frames(octets, check, list, answer)
}

#[unsafe(no_mangle)]
pub extern "C" fn dacom_records_of_capture(
    octets: &[u8],
    list: &[u64],
    out: &mut [u8],
    answer: &mut [u64; 1],
) -> u64
    ensures { (result, out.new, answer.new) ≡ exported_records octets.now list.now out.old answer.old }
{
    c_capture::records_of_capture(octets, list, out, answer)
}
