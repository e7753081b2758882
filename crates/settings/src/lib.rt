// The settings of a page: its mode and its paper.
#![tactic(auto)]

ghost use Rattle.std.specs.Prelude.{◌≡◌, ◌<◌};
ghost use Rattle.settings.specs.Settings.{with_paper, settings_of, mode_number, paper_number, settings_number};

#[derive(Clone, Copy)]
pub enum Mode {
    Quality,
    Detail,
    Express,
}

// The paper's length in inches.
#[derive(Clone, Copy)]
pub enum Paper {
    Eleven,
    FiveAndHalf,
    Fourteen,
}

#[derive(Clone, Copy)]
pub struct Settings {
    pub mode: Mode,
    pub paper: Paper,
}

fn with_paper(mode: Mode, paper: usize) -> Option<Settings>
    ensures { result ≡ with_paper mode paper }
{
    match paper {
        0 => Some(Settings {
            mode,
            paper: Paper::Eleven,
        }),
        1 => Some(Settings {
            mode,
            paper: Paper::FiveAndHalf,
        }),
        2 => Some(Settings {
            mode,
            paper: Paper::Fourteen,
        }),
        _ => None,
    }
}

// The settings of the four bits speed 8, detail 4, 14 inch 2, 5.5 inch 1, or none where the bits are not allowed.
pub fn settings_of(n: usize) -> Option<Settings>
    ensures { result ≡ settings_of n }
{
    let paper = n % 4;
    match n / 4 {
        0 => with_paper(Mode::Quality, paper),
        1 => with_paper(Mode::Detail, paper),
        2 => with_paper(Mode::Express, paper),
        _ => None,
    }
}

// The bits speed and detail of a mode.
impl From<Mode> for usize {
    ghost from_gives = { λ mode n. (n ≡ mode_number mode) × (n < 3) };

    fn from(mode: Mode) -> usize {
        match mode {
            Mode::Quality => 0,
            Mode::Detail => 1,
            Mode::Express => 2,
        }
    }
}

// The bits 14 inch and 5.5 inch of a paper.
impl From<Paper> for usize {
    ghost from_gives = { λ paper n. (n ≡ paper_number paper) × (n < 3) };

    fn from(paper: Paper) -> usize {
        match paper {
            Paper::Eleven => 0,
            Paper::FiveAndHalf => 1,
            Paper::Fourteen => 2,
        }
    }
}

// The four bits of settings.
impl From<Settings> for usize {
    ghost from_gives = { λ s n. (n ≡ settings_number s) × (n < 16) };

    fn from(s: Settings) -> usize {
        4 * usize::from(s.mode) + usize::from(s.paper)
    }
}
