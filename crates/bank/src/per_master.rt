ghost use Rattle.std.specs.Prelude.{◌≡◌, ℕ, Some};
ghost use Rattle.bank.specs.ByMaster.{EachCloned, EachMaster, of_master, Placed};
ghost use Rattle.bank.specs.Meaning.{Master};

use crate::PerMaster;
use std::alloc::AllocError;

// By hand, since the derived one of an array asks besides how much memory a queue of any policy takes.
impl<T: Clone> Clone for PerMaster<T> {
    ghost is_clone = { λ v w. EachCloned (λ x y. T.is_clone x y) v w };

    ghost is_infallible = { λ v. EachMaster (λ x _. T.is_infallible x) v v };

    fn clone(&self) -> Result<Self, AllocError> {
        prove!(self.values.len() == 8);
        let [a, b, c, d, e, f, g, h] = &self.values;
        Ok(PerMaster {
            values: [
                a.clone()?,
                b.clone()?,
                c.clone()?,
                d.clone()?,
                e.clone()?,
                f.clone()?,
                g.clone()?,
                h.clone()?,
            ],
        })
    }
}

impl<T: Copy> PerMaster<T> {
    // The same value for each master.
    pub fn all(value: T) -> PerMaster<T>
        ensures { (k : ℕ) → Master k → of_master result k ≡ Some value }
    {
        PerMaster { values: [value; 8] }
    }

    // The master's value, if there is such a master.
    pub fn get(&self, master: usize) -> Option<T>
        ensures { result ≡ of_master self.now master }
    {
        self.values.get(master.checked_sub(1)?).copied()
    }

    // Gives the master another value; nothing changes where there is no such master.
    pub fn set(&mut self, master: usize, value: T)
        ensures { Placed self.old master value self.new }
    {
        if (1..=8).contains(&master) {
            self.values[master - 1] = value;
        }
    }
}
