//! The towers seen along a line.

ghost use Rattle.std.specs.Prelude.{◌≡◌, ◌≤◌, length};
ghost use Rattle.tower_lines.specs.TowersSeen.{seen};

/// The number of towers seen along a line of numbers: a tower is seen where every tower before it
/// is shorter.
pub fn seen(line: &[u8]) -> usize
    ensures shown { result ≡ seen line.now }
    ensures most { result ≤ length line.now }
{
    let mut count = 0;
    // One more than the tallest tower so far, so that the first tower of all is seen at any height.
    let mut least_seen = 0;
    for &height in line {
        let height = u16::from(height);
        if height >= least_seen {
            count += 1;
            least_seen = height + 1;
        }
    }
    count
}
