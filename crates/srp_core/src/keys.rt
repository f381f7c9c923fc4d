//! Keys of routes, and the lone numbers in them.

ghost use Rattle.std.specs.Prelude.{◌≡◌, ◌||◌, length, cond, Some};
ghost use Rattle.std.specs.Ordering.{nat_cmp};
ghost use Rattle.std.specs.Cmp.Lexicographic.{slice_cmp};
ghost use Rattle.srp_core.specs.LoneOrder.{rest_above, head_of, least_of, is_over};
ghost use Rattle.srp_core.specs.Problem.{has_marked_number, is_lone_number, key_of};
ghost use Rattle.srp_core.specs.Routes.{chosen, compare_keys, IsRouteOf};

use crate::route::Route;
use crate::srp::Srp;
use std::cmp::Ordering;

// Whether a marked router has that number.
fn has_marked_number(marks: &[bool], numbers: &[u32], wanted: u32) -> bool
    requires { length marks.now ≡ length numbers.now }
    ensures { result ≡ has_marked_number marks.now numbers.now wanted }
{
    for i in 0..marks.len() {
        if marks[i] && numbers[i] == wanted {
            return true;
        }
    }
    false
}

// The lesser of a number and the best so far, if the number is above the bound.
fn nearer(best: Option<u32>, bound: Option<u32>, number: u32) -> Option<u32>
    ensures { result ≡ cond (is_over bound number) (Some (least_of number best)) best }
{
    let is_over = match bound {
        None => true,
        Some(least) => least < number,
    };
    if !is_over {
        return best;
    }
    match best {
        None => Some(number),
        Some(other) => if number < other {
            Some(number)
        } else {
            Some(other)
        },
    }
}

impl Srp {
    fn is_lone_number(&self, wanted: u32) -> bool
        ensures { result ≡ is_lone_number self.now wanted }
    {
        let _known = self.count();
        has_marked_number(self.lone(), self.numbers(), wanted)
    }

    fn nearer_lone(&self, best: Option<u32>, bound: Option<u32>, number: u32) -> Option<u32>
        ensures { result ≡ cond (is_lone_number self.now number) (cond (is_over bound number) (Some (least_of number best)) best) best }
    {
        if self.is_lone_number(number) {
            nearer(best, bound, number)
        } else {
            best
        }
    }

    // The least number of a lone router on the path that is above the bound.
    fn next_lone(&self, path: &[u32], bound: Option<u32>) -> Option<u32>
        ensures { result ≡ head_of (rest_above bound (chosen (is_lone_number self.now) path.now)) }
    {
        let mut best: Option<u32> = None;
        let mut i = path.len();
        while i > 0 {
            i -= 1;
            best = self.nearer_lone(best, bound, path[i]);
        }
        best
    }

    // Compares the ascending lists of the numbers of lone routers on two paths, without making them.
    fn compare_lone(&self, a: &[u32], b: &[u32]) -> Ordering
        ensures { result ≡ slice_cmp nat_cmp (chosen (is_lone_number self.now) a.now) (chosen (is_lone_number self.now) b.now) }
    {
        let mut bound: Option<u32> = None;
        loop {
            let first = self.next_lone(a, bound);
            let second = self.next_lone(b, bound);
            match (first, second) {
                (None, None) => return Ordering::Equal,
                (None, Some(_)) => return Ordering::Less,
                (Some(_), None) => return Ordering::Greater,
                (Some(x), Some(y)) => {
                    if x < y {
                        return Ordering::Less;
                    }
                    if y < x {
                        return Ordering::Greater;
                    }
                    bound = Some(x);
                }
            }
        }
    }

    /// How two routes of the problem's protocol compare: Less where the first has the better key, and
    /// Equal where the keys are equal. In BGP a higher preference is better, then a shorter path, then
    /// the lexicographically smaller list of communities, then that of the numbers of lone routers on
    /// the path; in OSPF a smaller cost (RFC 4271 sections 9.1.1 and 9.1.2.2 a for the first two steps).
    #[tactic(auto, unfolding(crate::specs::Routes::compare_keys, crate::specs::Routes::chosen))]
    pub fn key_cmp(&self, a: &Route, b: &Route) -> Ordering
        requires first { IsRouteOf self.now.protocol a.now }
        requires second { IsRouteOf self.now.protocol b.now }
        ensures { result ≡ compare_keys (key_of self.now a.now) (key_of self.now b.now) }
    {
        match (a, b) {
            (
                Route::Bgp { lp, path, comms },
                Route::Bgp {
                    lp: other_lp,
                    path: other_path,
                    comms: other_comms,
                },
            ) => {
                let path = path.as_slice();
                let other_path = other_path.as_slice();
                let by_preference = other_lp.cmp(lp);
                let by_length = path.len().cmp(&other_path.len());
                let by_comms = comms.cmp(other_comms);
                let by_lone = self.compare_lone(path, other_path);
                by_preference.then(by_length.then(by_comms.then(by_lone)))
            }
            (Route::Ospf { cost }, Route::Ospf { cost: other }) => cost.cmp(other),
            (Route::Bgp { .. }, Route::Ospf { .. }) => Ordering::Equal,
            (Route::Ospf { .. }, Route::Bgp { .. }) => Ordering::Equal,
        }
    }
}
