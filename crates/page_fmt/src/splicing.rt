//! A piece of bytes gives way to a longer or shorter one, and the bytes behind it move.

ghost use Rattle.std.specs.Prelude.{◌≡◌, ◌+◌, ◌-◌, ◌≤◌, ◌++◌, List, ℕ, length, take, drop};
ghost use Rattle.page_fmt.specs.Places.{zeros};

// The first `end` bytes move back by `by` places, and as many bytes from behind them come to the front.
fn move_back(area: &mut [u8], by: usize, end: usize)
    requires { end + by ≤ length area.old }
    ensures { area.new ≡ (drop end (take (end + by) area.old) ++ take end area.old) ++ drop (end + by) area.old }
{
    area[..end + by].rotate_right(by);
}

// The first `end` bytes move to the front by `by` places, and the first ones go behind them.
fn move_front(area: &mut [u8], by: usize, end: usize)
    requires order { by ≤ end }
    requires within { end ≤ length area.old }
    ensures { area.new ≡ (drop by (take end area.old) ++ take by area.old) ++ drop end area.old }
{
    area[..end].rotate_left(by);
}

// The `old` zeros before a tail that ends at `end` become `new` zeros; behind the tail stand zeros.
fn move_tail(area: &mut [u8], old: usize, new: usize, end: usize)
    requires order { old ≤ end }
    requires within { end ≤ length area.old }
    requires room { end + new ≤ length area.old + old }
    ensures { (tail : List ℕ) → area.old ≡ zeros old ++ (tail ++ zeros (length area.old - end)) → area.new ≡ zeros new ++ (tail ++ zeros (length area.old + old - end - new)) }
{
    if new >= old {
        move_back(area, new - old, end);
    } else {
        move_front(area, old - new, end);
    }
}

// Zeros in place of the first bytes.
fn clear_front(area: &mut [u8], count: usize)
    requires { count ≤ length area.old }
    ensures { area.new ≡ zeros count ++ drop count area.old }
{
    area[..count].fill(0);
}

// Bytes over the first ones.
fn write_front(area: &mut [u8], bytes: &[u8])
    requires { length bytes.now ≤ length area.old }
    ensures { area.new ≡ bytes.now ++ drop (length bytes.now) area.old }
{
    area[..bytes.len()].copy_from_slice(bytes);
}

/// The first `old` bytes give way to others; the bytes behind them end at `end`, and zeros follow.
pub(crate) fn replace_front(area: &mut [u8], old: usize, end: usize, bytes: &[u8])
    requires order { old ≤ end }
    requires within { end ≤ length area.old }
    requires room { end + length bytes.now ≤ length area.old + old }
    ensures { (front tail : List ℕ) → area.old ≡ front ++ (tail ++ zeros (length area.old - end)) → length front ≡ old → area.new ≡ bytes.now ++ (tail ++ zeros (length area.old + old - end - length bytes.now)) }
{
    clear_front(area, old);
    move_tail(area, old, bytes.len(), end);
    write_front(area, bytes);
}
