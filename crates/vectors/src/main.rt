// Runs the five records of RFC 798's appendix, which data/appendix.txt has in both forms that the RFC prints:
// the stored octets against the sent ones, the headers, the settings, what each data part says (its columns, and the end, which the next header
// must say too), and each record written again from what it says, up to the check.
// The set-up record differs in four bits alone: its spare bits, 67 to 71, are 01011 and its multi-page bit, 72, is 1, where we write 0.
// Then two pages of two lines, as the scope paper has the bitmap form: the sizes low octet first, the leftmost pel the high bit, black 1, the top
// pel of a column in the upper line, two trailing 0 bits.
// Then the columns of the appendix's three image frames against the first two rows of the bitmap that the RFC prints, which data/picture.txt has:
// they agree in all pels but two, at 436 and 770, the X of the second and of the third image header (docs/APPENDIX.md).
// Then page files: the five stored records without an end record are refused by 1 at 5, and with it by 14, since they lay 1159 columns; their
// headers agree up to there. Their checks compared: by the scope paper's order the first differs; as the RFC's frames carry them all agree, and any
// one of the bits 24 to 584 turned in any of them is refused by 5 there. And the scope paper's page of two white lines, in 14 words and 98 bits.
// Then what we write. The appendix's page, brought to its right edge by one more frame, is read and written again: the RFC's writer follows our rule,
// so its second and third image frames come out bit for bit and so does the first, but for X (the RFC says 4095, we 1725); of the
// others the spare bits of the set-up frame and the header of the frame of count 0 differ. And the white page, which is as put together by hand.
// Then runs of several words that end at the right edge, worked by hand, one column before it and one behind it: RFC 798 has the last word tested
// there. And a page of two row pairs, the first of which ends in such a run: it is written as put together by hand, and read back.
// Then data parts that have no reading, worked by hand, each with the number of its first bits that have one.
// What the program writes is compared with the file `stdout`.
#![tactic(auto)]

use std::rt::HostRuntime;
use system::failure::say_failure;
use system::input::{opened, read_full};
use vector_frames::show_record;
use vector_text::text::{Octets, octal};

// The five records, one by one.
fn show_records(rt: &impl Print, octets: [u8; 800]) {
    for k in 0..5 {
        show_record(rt, &octets, k);
    }
}

fn show_all(rt: &impl Print, octets: [u8; 800], rows: [u8; 800]) {
    show_records(rt, octets);
    vector_pages::show_pages(rt);
    vector_picture::show_picture(rt, &octets, &rows);
    vector_reads::show_appendix(rt, &octets);
    vector_checks::show_checks(rt, &octets);
    vector_reads::show_white(rt);
    vector_writes::show_appendix(rt, &octets);
    vector_writes::show_white(rt);
    vector_edges::show_parts(rt);
    vector_writes::show_edge(rt);
    vector_stops::show_parts(rt);
}

// The octets of the octal numbers in a file, or says why it cannot be read.
fn octets_in(rt: &HostRuntime, path: &[u8]) -> Option<Octets> {
    match opened(rt, path) {
        Ok(mut source) => {
            let mut file = [0u8; 65536];
            let n = read_full(&mut source, &mut file);
            Some(octal(&file[..n]))
        }
        Err(e) => {
            say_failure(&rt.stderr(), path, e);
            None
        }
    }
}

fn main(rt: HostRuntime) {
    let all = octets_in(&rt, b"appendix.txt");
    let rows = octets_in(&rt, b"picture.txt");
    match (all, rows) {
        (Some(all), Some(rows)) if all.count == 760 && rows.count == 432 => show_all(
            &rt,
            all.octets,
            rows.octets,
        ),
        _ => {
            let _ = rt.write_all(b"not 760 and 432 octets\n");
        }
    }
}
