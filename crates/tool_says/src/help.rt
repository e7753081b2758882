// The help text.
use crate::MOST_READ;
use bitmap::MOST_LINES;

pub fn show(to: &impl Print) {
    show_commands(to);
    show_limits(to);
}

// What is taken.
fn show_limits(to: &impl Print) {
    let _ = to.write_all(b"\nA page has at most ");
    let _ = to.print(MOST_LINES);
    let _ = to.write_all(b" lines. Of a page file and of a portable bitmap the first\n");
    let _ = to.print(MOST_READ);
    let _ = to.write_all(
        b" octets are read, and those behind the page are not looked at.\nRun words are read up to the 0 that ends the page. A capture has at most ",
    );
    let _ = to.print(MOST_READ);
    let _ = to.write_all(b"\noctets.\n");
}

fn show_commands(to: &impl Print) {
    let _ = to.write_all(
        b"d450 lists, reads and writes Dacom 450 facsimile pages.\n\n\
d450 list [CHECK] FILE\n\
\x20   a page file record by record, and what it comes to\n\
d450 records [CHECK] FILE\n\
\x20   a file record by record, each judged by itself whatever came before it, as\n\
\x20   far as one that is refused by itself\n\
d450 read [--playback] [CHECK] FILE OUT\n\
\x20   a page file as a picture: a PNG where OUT ends in .png, else a portable\n\
\x20   bitmap (P4); with --playback each line as often as the machine prints it:\n\
\x20   detail once, quality twice, express three times\n\
d450 write [--rate 2400|4800|9600] [--express|--detail] [--paper 11|14|5.5]\n\
\x20          [CHECK] IN.pbm OUT\n\
\x20   a portable bitmap (P4) of 1726 pels a line as a page file; without these\n\
\x20   options rate 4800, quality, paper 11\n\
d450 words [CHECK] FILE OUT\n\
\x20   a page file as run words of 16 bits, low octet first\n\
d450 bitmap WORDS OUT\n\
\x20   run words as the bitmap form of RFC 803\n\
d450 frames [CHECK] CAPTURE\n\
\x20   where frames stand in a raw capture of the line's bits, by octet and bit\n\
d450 extract [CHECK] CAPTURE OUT\n\
\x20   the frames of a raw capture as a page file for list, records, read and words\n\
d450 help\n\n\
CHECK: [--check scope|rfc|none] [--generator N] [--start N] [--first 0|24]\n\
\x20      [--order low|high] [--compare|--no-compare]\n\
\x20   rfc is what frames off a machine carry: use it on tapes, so that a damaged\n\
\x20   frame is known (generator 425, start 0, first bit 0, high bit first,\n\
\x20   compared). scope is the same low bit first, by which write writes, and\n\
\x20   frames and extract look, where nothing is said; where rfc finds more frames\n\
\x20   than scope these two say so, and do nothing else. none, as reading does\n\
\x20   where nothing is said, does not compare. A later option changes what an\n\
\x20   earlier one says.\n\n\
FILE, IN.pbm, WORDS, CAPTURE and OUT may be -, standard input and standard\n\
output. OUT takes its name once it is whole: what was there stays where\n\
anything fails. The exit status is 0 where all was done, else 1.\n",
    );
}
