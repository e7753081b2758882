// Portable bitmaps as page files.
#![tactic(auto)]

use pbm::PbmFault;
use pbm_reader::bitmap_of_pbm;
use settings::Paper;
use std::rt::HostRuntime;
use tool_files::Input;
use tool_names::Identity;
use tool_options::{Options, USUAL, WriteOptions, compared};
use tool_says::Coverage;
use writer::{SettingBits, write_page};

fn settings(writing: WriteOptions) -> SettingBits {
    SettingBits {
        speed: writing.express,
        detail: writing.detail,
        fourteen: matches!(writing.paper, Paper::Fourteen),
        five_and_half: matches!(writing.paper, Paper::FiveAndHalf),
    }
}

fn write_octets(rt: &HostRuntime, bitmap: &[u8], out: &mut [u8], input: Identity, o: Options) {
    let writing = o.writing.unwrap_or(USUAL);
    match write_page(bitmap, settings(writing), writing.rate, compared(o), out) {
        Ok(n) => tool_files::save(rt, o.to, input, &out[..n.min(out.len())]),
        Err(refusal) => tool_says::refused(rt, refusal),
    }
}

// Why a portable bitmap is not read. Where only its first octets were, rows that are missing may stand behind them.
fn not_read(rt: &HostRuntime, fault: PbmFault, i: usize, coverage: Coverage) {
    if coverage == Coverage::Cut && fault == PbmFault::RowsMissing {
        tool_says::complain_longer(rt, i);
    } else {
        tool_says::fault(rt, i, fault);
    }
}

// The portable bitmap at the front of `file` as a page file, which is made in the same place once the bitmap is.
fn write_pbm(rt: &HostRuntime, file: &mut [u8], input: Input, bitmap: &mut [u8], o: Options) {
    let n = input.octets.min(file.len());
    match bitmap_of_pbm(&file[..n], bitmap) {
        Ok(n) => write_octets(rt, &bitmap[..n.min(bitmap.len())], file, input.file, o),
        Err(fault) => not_read(rt, fault, o.from, input.coverage),
    }
}

// A portable bitmap as a page file.
pub fn write(rt: &HostRuntime, file: &mut [u8], bitmap: &mut [u8], o: Options) {
    if let Some(input) = tool_files::read(rt, o.from, file) {
        write_pbm(rt, file, input, bitmap, o);
    }
}
