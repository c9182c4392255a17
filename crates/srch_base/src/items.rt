ghost use Rattle.std.specs.Prelude.{◌≡◌, length, IsTrue, ◌↔◌, []};
ghost use Rattle.std.specs.List.{AllZip};
ghost use Rattle.std.specs.Cmp.Lexicographic.{pointwise, lists_per, lists_equiv};

use std::alloc::AllocError;
use std::marker::Model;

/// A `Vec` that contracts see as the list of its elements.
///
/// It is the field type of public types in the place of a `Vec`: a value's clauses then speak of lists, and not of
/// capacities. Making one and taking it apart moves nothing and takes no memory.
#[derive(Debug, Drop)]
pub struct Items<T> {
    list: Vec<T>,
}

impl<T> Model for Items<T> {
    ghost use Rattle.std.specs.Prelude.{List};
    ghost use Rattle.std.specs.Coded.{coded_list};

    ghost Value = { List T };

    ghost coded = { coded_list T.code };

    ghost view = { λ items. items.list.items };
}

impl<T> Items<T> {
    pub fn new(list: Vec<T>) -> Items<T>
        ensures { result ≡ list.items }
    {
        Items { list }
    }

    pub fn as_slice(&self) -> &[T]
        ensures { result.now ≡ self.now }
    {
        self.list.as_slice()
    }

    pub fn into_vec(self) -> Vec<T>
        ensures { result.items ≡ self }
    {
        let Items { list } = self;
        list
    }

    pub fn len(&self) -> usize
        ensures { result ≡ length self.now }
    {
        self.list.len()
    }

    pub fn is_empty(&self) -> bool
        ensures { IsTrue result ↔ (self.now ≡ []) }
    {
        self.list.is_empty()
    }
}

impl<T: Clone> Clone for Items<T> {
    ghost is_clone = { AllZip T.is_clone };

    fn clone(&self) -> Result<Self, AllocError> {
        Ok(Items {
            list: self.list.clone()?,
        })
    }
}

impl<T: PartialEq> PartialEq for Items<T> {
    ghost eq = { pointwise T.eq };

    ghost laws = { lists_per T.laws };

    fn eq(&self, other: &Self) -> bool {
        self.list == other.list
    }
}

impl<T: Eq> Eq for Items<T> {
    ghost laws = { lists_equiv T.Eq.laws };
}
