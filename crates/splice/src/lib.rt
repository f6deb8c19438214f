// Moves within a byte buffer.
#![tactic(auto)]

ghost use Rattle.std.specs.Prelude.{◌≡◌, ◌+◌, ◌-◌, ◌%◌, ◌≤◌, ◌<◌, length, if◌then◌else◌};
ghost use Rattle.lists.specs.Bytes.{little_bytes, zeros, padded_to, over};
ghost use Rattle.splice.specs.Moves.{moved, copied, opened, closed, without_front, grown, shrunk, resized, table_edited, edit_fits, put_fits};

// Sets the k bytes at `at` to 0.
#[tactic(auto, unfolding(lists::specs::Bytes::over))]
fn clear(a: &mut [u8], at: usize, k: usize)
    requires { at + k ≤ length a.old }
    ensures { a.new ≡ over at (zeros k) a.old }
{
    let end = at + k;
    table::fill(&mut a[at..end], 0);
}

// Moves the n bytes at `at` up by k, and clears the k bytes before them.
#[tactic(auto, using(crate::proofs::Moving::within_moved), unfolding(crate::specs::Moves::opened))]
fn open_gap(a: &mut [u8], at: usize, n: usize, k: usize)
    requires { at + n + k ≤ length a.old }
    ensures { a.new ≡ opened a.old at n k }
{
    a.copy_within(at..at + n, at + k);
    clear(a, at, k);
}

// Takes the k bytes at `at` out: the n bytes after them move down, and the k bytes after those are cleared.
#[tactic(auto, using(crate::proofs::Moving::within_moved), unfolding(crate::specs::Moves::closed))]
fn close_gap(a: &mut [u8], at: usize, n: usize, k: usize)
    requires { at + n + k ≤ length a.old }
    ensures { a.new ≡ closed a.old at n k }
{
    let from = at + k;
    a.copy_within(from..from + n, at);
    clear(a, at + n, k);
}

// What follows a place in a table: `tail` of the table's bytes, then z of padding, and after it `post` bytes of the frame.
#[derive(Clone, Copy)]
struct After {
    tail: usize,
    z: usize,
    post: usize,
}

impl After {
    // Makes room for k bytes at `at`.
    #[tactic(auto, unfolding(crate::specs::Moves::grown))]
    fn grow(self, a: &mut [u8], at: usize, k: usize)
        requires post_in_bounds { at + self.tail + k + (self.z + 16 - k) % 16 + self.post ≤ length a.old }
        requires z_bound { (self.z < 16) × (k ≤ 16) }
        ensures { a.new ≡ grown a.old at self.tail self.z self.post k }
    {
        if self.z < k {
            open_gap(a, at + self.tail + self.z, self.post, 16);
        }
        open_gap(a, at, self.tail, k);
    }

    // Takes the k bytes at `at` out, which these follow.
    #[tactic(auto, unfolding(crate::specs::Moves::shrunk))]
    fn shrink(self, a: &mut [u8], at: usize, k: usize)
        requires post_in_bounds { at + k + self.tail + self.z + self.post ≤ length a.old }
        requires z_bound { (self.z < 16) × (k ≤ 16) }
        ensures { a.new ≡ shrunk a.old at self.tail self.z self.post k }
    {
        close_gap(a, at, self.tail, k);
        let spare = self.z + k;
        if 16 <= spare {
            let end = at + self.tail;
            close_gap(a, end + (spare - 16), self.post, 16);
        }
    }

    // Makes `new` bytes of the `old` bytes at `at`, which these follow.
    #[tactic(auto, unfolding(crate::specs::Moves::resized))]
    fn resize(self, a: &mut [u8], at: usize, old: usize, new: usize)
        requires z_bound { (self.z < 16) × (old ≤ 16) × (new ≤ 16) }
        requires post_in_bounds { at + old + self.tail + self.z + self.post ≤ length a.old }
        requires post_in_bounds_2 { at + new + self.tail + (self.z + 32 + old - new) % 16 + self.post ≤ length a.old }
        ensures { a.new ≡ resized a.old at old new self.tail self.z self.post }
    {
        if old < new {
            self.grow(a, at + old, new - old);
        }
        if new < old {
            let tail = new + self.tail;
            After { tail, ..self }.shrink(a, at, old - new);
        }
    }
}

// Writes the w lowest bytes of v at `at`, the least significant first.
fn put_le(a: &mut [u8], at: usize, v: u32, w: usize)
    requires { at + w ≤ length a.old }
    ensures { a.new ≡ over at (little_bytes w v) a.old }
{
    table::put_le(&mut a[at..at + w], v);
}

// n bytes with the padding to a multiple of 16.
#[tactic(auto, unfolding(lists::specs::Bytes::padded_to))]
fn padded_len(n: usize) -> usize
    requires { n < 9223372036854775824 }
    ensures { result ≡ padded_to 16 n }
{
    (n + 15) / 16 * 16
}

// An entry of w bytes can take the place of one of `old`. No sum here wraps, whatever the numbers are.
// The parameters are those of edit, which other crates call and whose contract names each of them.
#[tactic(auto, unfolding(crate::specs::Moves::edit_fits, lists::specs::Bytes::padded_to))]
fn edit_fits(
    room: usize,
    s: usize,
    n: usize,
    before: usize,
    old: usize,
    post: usize,
    w: usize,
) -> bool
    requires { room < 9223372036854775808 }
    ensures { result ≡ edit_fits room s n before old post w }
{
    if room < s || room - s < post {
        return false;
    }
    let free = room - s - post;
    let within = n <= free && before <= n && old <= n - before;
    let short = old <= 16 && w <= 16;
    within && short && padded_len(n) <= free && padded_len(n - old + w) <= free
}

// In the table of n bytes at s, puts the w low bytes of v in the place of the `old` bytes that stand after `before`; `post` bytes of
// the frame follow the table's padding. Where that does not fit every byte stays.
pub fn edit(
    a: &mut [u8],
    s: usize,
    n: usize,
    before: usize,
    old: usize,
    post: usize,
    v: u32,
    w: usize,
) -> bool
    ensures value { result ≡ edit_fits (length a.old) s n before old post w }
    ensures a_after { a.new ≡ if◌then◌else◌ (edit_fits (length a.old) s n before old post w) (table_edited a.old s n before old post (little_bytes w v)) a.old }
{
    let fits = edit_fits(a.len(), s, n, before, old, post, w);
    if fits {
        let at = s + before;
        let tail = n - (before + old);
        let z = padded_len(n) - n;
        After { tail, z, post }.resize(a, at, old, w);
        put_le(a, at, v, w);
    }
    fits
}

// Writes the w low bytes of v, at most 4, over the bytes at `at`. Where they do not fit every byte stays.
#[tactic(auto, unfolding(crate::specs::Moves::put_fits))]
pub fn put(a: &mut [u8], at: usize, v: u32, w: usize) -> bool
    ensures value { result ≡ put_fits (length a.old) at w }
    ensures a_after { a.new ≡ if◌then◌else◌ (put_fits (length a.old) at w) (over at (little_bytes w v) a.old) a.old }
{
    if w <= 4 && w <= a.len() && at <= a.len() - w {
        put_le(a, at, v, w);
        return true;
    }
    false
}

// Copies the n bytes at `from` to `to`, in either direction. Where they do not lie in the buffer, before or after, every byte stays:
// the slice's own copy_within asks that they do.
#[tactic(auto, using(crate::proofs::Moving::within_moved), unfolding(crate::specs::Moves::copied))]
pub fn copy_within(a: &mut [u8], from: usize, to: usize, n: usize)
    ensures { a.new ≡ copied a.old from to n }
{
    if n <= a.len() && from <= a.len() - n && to <= a.len() - n {
        a.copy_within(from..from + n, to);
    }
}

// Takes the first k bytes out: the others move to the front, and k zeros follow them. Where there are fewer every byte stays.
pub fn drop_front(a: &mut [u8], k: usize)
    ensures { a.new ≡ without_front a.old k }
{
    if k <= a.len() {
        close_gap(a, 0, a.len() - k, k);
    }
}
