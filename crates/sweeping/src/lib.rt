// Swap removal in the places of a slice, by a test: the last one fills each hole and is looked at next. What stands there is not known
// here.
#![tactic(auto)]

ghost use Rattle.std.specs.Prelude.{◌≡◌, Bool, take, length, ◌≤◌};
ghost use Rattle.std.specs.Fn.{FnReturnsAt};
ghost use Rattle.lists.specs.Removal.{sweep};

// How many stay; they stand in the first places. A `while`, since the index stays where a hole was filled.
pub fn sweep<T: Copy, P: Fn(&T) -> bool>(places: &mut [T], test: P) -> usize
    requires { P.IsAlwaysCallable test }
    ensures within { result ≤ length places.new }
    ensures stays { (p : T → Bool) → ((x : T) (b : Bool) → FnReturnsAt P.Fn test x b → b ≡ p x)
        → take result places.new ≡ sweep p places.old }
{
    let mut n = places.len();
    let mut i = 0;
    while i < n {
        if test(&places[i]) {
            n -= 1;
            places[i] = places[n];
        } else {
            i += 1;
        }
    }
    n
}
