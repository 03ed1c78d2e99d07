// The places of trees in a row: each is the place that follows the tree before it.
ghost use Rattle.std.specs.Prelude.{◌≡◌, List, ℕ};
ghost use Rattle.std.specs.Iterator.{YieldsFirst, item_count};
ghost use Rattle.nav.specs.PlaceTables.{HopsIn, walk};

use std::marker::Model;

// The places of `left` trees in a row, of which the first is at place `next`.
#[derive(Drop)]
pub struct Children<'a> {
    nexts: &'a [u16; 2048],
    next: usize,
    left: usize,
}

impl<'a> Model for Children<'a> {
    ghost Value = { List ℕ };

    ghost view = { λ c. walk c.nexts.now c.next c.left };

    ghost invariant = { λ c. HopsIn c.nexts.now c.left c.next };
}

// The places of m trees in a row, of which the first is at place c.
pub fn row<'a>(nexts: &'a [u16; 2048], c: usize, m: usize) -> Children<'a>
    requires { HopsIn nexts.now m c }
    ensures { result ≡ walk nexts.now c m }
{
    Children {
        nexts: nexts,
        next: c,
        left: m,
    }
}

impl<'a> Iterator for Children<'a> {
    type Item = usize;

    ghost next_gives = { YieldsFirst (λ c. c) };

    ghost remaining = { item_count (λ c. c) };

    fn next(&mut self) -> Option<usize> {
        if self.left == 0 {
            return None;
        }
        let place = self.next;
        self.next = usize::from(self.nexts[place]);
        self.left -= 1;
        Some(place)
    }
}
