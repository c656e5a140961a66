//! Whether lags and frames are within the limits of a file.
ghost use Rattle.std.specs.Prelude.{◌≡◌};
ghost use Rattle.tsn_cert.specs.Cert.{lag_fits, frame_fits};
ghost use Rattle.tsn_cert.specs.Move.{edge_fits};

use crate::chain::MAX_NUMBER;
use crate::limited::Limited;
use tsn_model::Frame;

/// The greatest size of a lag in a file, in nanoseconds.
pub const MAX_LAG: u64 = 999_999_999;

// The greatest shift in a file, in nanoseconds.
const MAX_SHIFT: u64 = 4_294_967_295;

/// Whether the size of the lag is within its limit.
pub fn lag_fits(lag: i64) -> bool
    ensures { result ≡ lag_fits lag }
{
    lag.unsigned_abs() <= MAX_LAG
}

/// Whether both numbers of the frame are within their limit.
pub fn frame_fits(frame: Frame) -> bool
    ensures { result ≡ frame_fits frame }
{
    frame.stream <= MAX_NUMBER && frame.shift <= MAX_SHIFT
}

/// Whether the numbers of the frame, if there is one, are within their limit.
pub fn edge_fits(edge: Option<Frame>) -> bool
    ensures { result ≡ edge_fits edge }
{
    match edge {
        Some(frame) => frame_fits(frame),
        None => true,
    }
}

impl Limited for Frame {
    ghost use Rattle.tsn_cert.specs.Cert.{frame_fits};
    ghost use Rattle.tsn_cert.specs.Move.{frame_form, frame_value};

    ghost form = { frame_form };

    ghost within = { frame_fits };

    ghost printed = { frame_value };

    #[tactic(auto, using(crate::proofs::MoveLemmas::frame_back))]
    fn fits(&self) -> bool {
        frame_fits(*self)
    }
}
