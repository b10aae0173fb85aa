// The visits that a visit of one moment is near to, among visits in order and apart.
ghost use Rattle.std.specs.Prelude.{◌≡◌, ◌<◌, [], ◌∷◌, ◌++◌, length};
ghost use Rattle.live.specs.Near.{visits_of};

use visit::Visit;

// No more than two, by the type. By value, so that what holds them is copied.
#[derive(Clone, Copy)]
pub enum Near {
    Neither,
    One([Visit; 1]),
    Both([Visit; 2]),
}

impl Near {
    pub fn as_slice(&self) -> &[Visit]
        ensures { result.now ≡ visits_of self.now }
    {
        match self {
            Near::Neither => &[],
            Near::One(visits) => visits,
            Near::Both(visits) => visits,
        }
    }

    pub fn len(&self) -> usize
        ensures { result ≡ length (visits_of self.now) }
    {
        self.as_slice().len()
    }

    // Behind the others. None goes behind two.
    pub fn push(&mut self, visit: Visit)
        requires { length (visits_of self.old) < 2 }
        ensures { visits_of self.new ≡ visits_of self.old ++ visit ∷ [] }
    {
        match *self.as_slice() {
            [] => *self = Near::One([visit]),
            [first] => *self = Near::Both([first, visit]),
            _ => {}
        }
    }
}
