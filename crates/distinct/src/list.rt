// The kept positions into a lent list, which keeps its later places.
ghost use Rattle.std.specs.Prelude.{◌≡◌, ◌++◌, ◌≤◌, length, drop};
ghost use Rattle.theory.specs.Kept.{positions};

// The places of the marks go to the front of the list.
pub fn list_positions(keep: &[bool], list: &mut [usize]) -> usize
    requires { length keep.now ≤ length list.old }
    ensures { (result ≡ length (positions 0 keep.now))
        × (list.new ≡ positions 0 keep.now ++ drop result list.old) }
{
    let mut n: usize = 0;
    for (i, &kept) in keep.iter().enumerate() {
        if kept {
            list[n] = i;
            n += 1;
        }
    }
    n
}
