// The settings of a summary: how many parts of its total the error is at most, and from which share of the total a
// prefix is heavy. No settings exist that break a rule, so nothing above has to check them again; the rules stand in
// specs/Rules.
#![tactic(auto)]

ghost use Rattle.std.specs.Prelude.{◌≡◌, true, Some, None, MatchResult};
ghost use Rattle.settings.specs.Rules.{is_width, is_share, is_above_error, settings_refusal};

use refusal::Refusal;

const LARGEST_WIDTH: u32 = 1_000_000;

const LARGEST_SHARE: u32 = 1_000;

#[derive(Clone, Copy)]
pub struct Settings {
    // the error is the total over the width, rounded down
    width: u32,
    // in thousandths of the total
    share: u32,
    ghost width_in_range: { is_width width ≡ true },
    ghost share_in_range: { is_share share ≡ true },
    ghost share_above_error: { is_above_error width share ≡ true },
}

impl Settings {
    pub fn new(width: u32, share: u32) -> Result<Settings, Refusal>
        ensures { MatchResult result (λ s. (settings_refusal width share ≡ None) × (s.width ≡ width) × (s.share ≡ share)) (λ e. settings_refusal width share ≡ Some e) }
    {
        if !(2..=LARGEST_WIDTH).contains(&width) {
            return Err(Refusal::WidthOutOfRange);
        }
        if !(1..=LARGEST_SHARE).contains(&share) {
            return Err(Refusal::ShareOutOfRange);
        }
        if share * width <= 1000 {
            return Err(Refusal::ShareTooSmall);
        }
        Ok(Settings { width, share })
    }

    pub fn width(&self) -> u32
        ensures { result ≡ self.now.width }
    {
        self.width
    }

    pub fn share(&self) -> u32
        ensures { result ≡ self.now.share }
    {
        self.share
    }
}
