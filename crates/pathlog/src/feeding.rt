// Feeding a path log to a summary: each line is an add, until one is refused. What was counted before a refusal stays
// counted, so a log that is mended can be taken up again at the offset that the refusal names.
ghost use Rattle.std.specs.Prelude.{◌≡◌, ◌<◌, ◌≤◌, length, IfOk};
ghost use Rattle.refusal.specs.Numbers.{layer_of};
ghost use Rattle.model.specs.Answers.{SameTable};
ghost use Rattle.pathlog.specs.Feeds.{Feeds};

use super::lines::read_line;
use paths::{Paths, Place};
use refusal::{Layer, Refusal};
use summary::Summary;

// How many lines were counted, and the offset behind the last.
#[derive(Clone, Copy, Debug, PartialEq, Eq)]
pub struct Fed {
    pub counted: usize,
    pub offset: usize,
}

// Why a feed stopped: the refusal and the layer that gave it, where the refused line begins (or the start that lies past
// the end), and how many lines were counted before it. The last two are a `Fed` written out, so that whoever reads a refusal
// finds all of it side by side.
#[derive(Clone, Copy, Debug, PartialEq, Eq)]
pub struct FeedRefused {
    pub refusal: Refusal,
    pub layer: Layer,
    pub offset: usize,
    pub counted: usize,
}

impl Fed {
    // What a feed answers that is refused after this.
    fn refused_by(self, refusal: Refusal) -> FeedRefused
        ensures { result ≡ record { refusal = refusal; layer = layer_of refusal; offset = self.offset; counted = self.counted } }
    {
        FeedRefused {
            refusal,
            layer: refusal.layer(),
            offset: self.offset,
            counted: self.counted,
        }
    }
}

// Adds the line at an offset; answers where the next one begins.
fn feed_line(
    paths: &Paths<'_>,
    summary: &mut Summary<'_, Place>,
    offset: usize,
) -> Result<usize, Refusal>
    ensures table { SameTable summary.old summary.new }
    ensures next { IfOk result (λ n. (offset < n) × (n ≤ length paths.now.text.now)) }
{
    let line = read_line(paths.text(), offset)?;
    summary.add(paths, line.key, line.weight)?;
    Ok(line.next)
}

// Adds the lines from a start up to the text's end.
pub fn feed(
    paths: &Paths<'_>,
    summary: &mut Summary<'_, Place>,
    start: usize,
) -> Result<Fed, FeedRefused>
    ensures { Feeds paths.now.text.now start summary.old summary.new result }
{
    let end = paths.text().len();
    let mut fed = Fed {
        counted: 0,
        offset: start,
    };
    if start > end {
        return Err(fed.refused_by(Refusal::StartPastEnd));
    }
    while fed.offset < end {
        let next = feed_line(paths, summary, fed.offset);
        fed.offset = next.map_err(|refusal| fed.refused_by(refusal))?;
        fed.counted += 1;
    }
    Ok(fed)
}
