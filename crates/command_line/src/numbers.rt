//! The numbers that a command takes, with their ranges.
ghost use Rattle.std.specs.Prelude.{◌≡◌, IfSome, option_map};
ghost use Rattle.clap.specs.Words.{first_of, found_of, rows_of};
ghost use Rattle.command_line.specs.Numbers.{HasOptionsInRange, LiesIn, is_alone, number_in};
ghost use Rattle.command_line.specs.Numbers.{number_of, options_in, range_of};

use clap::ArgMatches;

/// What a number is called, its least and its greatest value.
#[derive(Clone, Copy)]
pub(crate) struct NumberArg {
    pub(crate) name: &'static str,
    pub(crate) least: u32,
    pub(crate) greatest: u32,
}

pub(crate) const BACKENDS: NumberArg = NumberArg {
    name: "backends",
    least: 1,
    greatest: 32,
};

pub(crate) const FRAMES: NumberArg = NumberArg {
    name: "frames",
    least: 16,
    greatest: 4096,
};

pub(crate) const LANES: NumberArg = NumberArg {
    name: "lanes",
    least: 1,
    greatest: 16,
};

pub(crate) const SEGMENT_BLOCKS: NumberArg = NumberArg {
    name: "segment-blocks",
    least: 1,
    greatest: 131_072,
};

pub(crate) const BGWRITER: NumberArg = NumberArg {
    name: "bgwriter",
    least: 0,
    greatest: 1000,
};

pub(crate) const SEED: NumberArg = NumberArg {
    name: "seed",
    least: 0,
    greatest: u32::MAX,
};

pub(crate) const BLOCKS: NumberArg = NumberArg {
    name: "blocks",
    least: 0,
    greatest: 16_384,
};

/// The options that a command with a buffer manager takes.
#[derive(Clone, Copy, PartialEq, Eq, Debug)]
pub struct Options {
    /// How many backends do the work, 1 to 32: `--backends`, or 1.
    pub backends: u32,

    /// How many frames the buffer pool has, 16 to 4096: `--frames`, or 128.
    pub frames: u32,

    /// How many device lanes hold the blocks, 1 to 16: `--lanes`, or 4.
    pub lanes: u32,

    /// How many blocks a full segment of a relation has, 1 to 131072: `--segment-blocks`, or
    /// 131072.
    pub seg_blocks: u32,

    /// How many rounds the background writer makes, 0 to 1000: `--bgwriter`, or 0.
    pub rounds: u32,
}

impl Options {
    /// Whether one backend does the work, and no background writer makes rounds.
    pub(crate) fn is_alone(self) -> bool
        ensures { result ≡ is_alone self }
    {
        self.backends == 1 && self.rounds == 0
    }
}

/// The text among the matches.
pub(crate) fn text_in<'a>(matches: &ArgMatches<'a>, name: &str) -> Option<&'a str>
    ensures { option_map (λ text. text.now) result ≡ first_of name.now
        (rows_of (found_of matches.now)) }
{
    matches.get_str(name)
}

/// The number that a text writes, if it lies in the range.
/// It is what clap's unsigned parser takes: `+5` and `007` are numbers; the empty text, `-1`, `0x1`
/// and `1.0` are not.
fn number_of(arg: NumberArg, text: &str) -> Option<u32>
    ensures value { result ≡ number_of (range_of arg) text.now }
    ensures range { IfSome result (LiesIn (range_of arg)) }
{
    let number = match text.parse::<u32>() {
        Ok(number) => number,
        Err(_) => return None,
    };
    if number < arg.least {
        return None;
    }
    if arg.greatest < number {
        return None;
    }
    Some(number)
}

/// The number among the matches, given or by default.
#[tactic(auto, unfolding(crate::specs::Numbers::number_in))]
pub(crate) fn number_in(matches: &ArgMatches, arg: NumberArg) -> Option<u32>
    ensures value { result ≡ number_in (range_of arg) (rows_of (found_of matches.now)) }
    ensures range { IfSome result (LiesIn (range_of arg)) }
{
    let text = text_in(matches, arg.name)?;
    number_of(arg, text)
}

/// The options among the matches.
pub(crate) fn options_in(matches: &ArgMatches) -> Option<Options>
    ensures value { result ≡ options_in (rows_of (found_of matches.now)) }
    ensures range { IfSome result HasOptionsInRange }
{
    let backends = number_in(matches, BACKENDS)?;
    let frames = number_in(matches, FRAMES)?;
    let lanes = number_in(matches, LANES)?;
    let seg_blocks = number_in(matches, SEGMENT_BLOCKS)?;
    let rounds = number_in(matches, BGWRITER)?;
    Some(Options {
        backends,
        frames,
        lanes,
        seg_blocks,
        rounds,
    })
}
