// A script whose head has passed its questions, with the place after it, where the first command stands. The log is no part of it:
// it is lent on to be written.

ghost use Rattle.std.specs.Prelude.{◌≡◌, true, ◌<◌, ◌≤◌, length};
ghost use Rattle.sizes.specs.Sizes.{most_bytes};
ghost use Rattle.player.specs.Player.{head_fits};

use cert::Head;

#[derive(Clone, Copy)]
pub struct Opened<'a> {
    pub script: &'a [u8],
    pub from: usize,
    pub head: Head,
    pub ghost short: { length script.now ≤ most_bytes },
    pub ghost headed: { 0 < from },
    pub ghost inside: { from ≤ length script.now },
    pub ghost fits: { head_fits head ≡ true },
}
