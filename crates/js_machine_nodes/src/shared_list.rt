//! Lists whose front may be shared with other lists.

ghost use Rattle.std.specs.Prelude.{◌≡◌, ◌<◌, ◌≤◌, ◌++◌, ◌∷◌, [], length, take, slice_get, slice_index_or, option_copied, vec_items, is_ok, IfOk, if◌then◌else◌};
ghost use Rattle.std.specs.Arc.{arc_value};
ghost use Rattle.js_machine_nodes.specs.Lists.{in_front};

use std::alloc::{AllocError, AllocFailed, Global};
use std::marker::Model;
use std::mem;
use std::sync::Arc;

/// A list. What stands in front in it may be shared with other lists, and doesn't change then; what stands behind that is
/// its own.
#[derive(Drop)]
pub struct SharedList<T> {
    front: Option<Arc<Vec<T>, Global>>,
    /// How many items of the front it has.
    base: usize,
    own: Vec<T>,
}

impl<T> Model for SharedList<T> {
    ghost use Rattle.std.specs.Prelude.{◌++◌, vec_items};
    ghost use Rattle.std.specs.Arc.{arc_value};
    ghost use Rattle.js_machine_nodes.specs.Lists.{Items, IsCounted, items_code, in_front};

    ghost Value = { Items T };

    ghost coded = { items_code T.code };

    ghost view = { λ l. record { items = in_front (λ f. vec_items (arc_value f)) l.front l.base ++ l.own.items } };

    ghost invariant = { λ l. IsCounted (λ f. vec_items (arc_value f)) l.front l.base };
}

/// The item of a number among so many of a front, if there is one.
fn item_in_front<T>(front: &Option<Arc<Vec<T>, Global>>, base: usize, n: usize) -> Option<&T>
    ensures { option_copied result ≡ slice_get (in_front (λ f. vec_items (arc_value f)) front.now base) n }
{
    match front {
        Some(front) => { if n < base { front.get(n) } else { None } }
        None => None,
    }
}

impl<T> SharedList<T> {
    /// A list in which nothing is yet. Takes no memory.
    pub fn new(alloc: Global) -> SharedList<T>
        ensures { result.items ≡ [] }
    {
        SharedList::from_vec(Vec::new(alloc))
    }

    /// The list of these items, all its own. Takes no memory.
    pub fn from_vec(items: Vec<T>) -> SharedList<T>
        ensures { result.items ≡ items.items }
    {
        SharedList {
            front: None,
            base: 0,
            own: items,
        }
    }

    /// How many items there are.
    pub fn len(&self) -> usize
        ensures { result ≡ length self.now.items }
    {
        self.base + self.own.len()
    }

    /// The item of a number, if there is one. Its own are found first, since the lists that are read most share nothing.
    #[inline(always)]
    pub fn get(&self, n: usize) -> Option<&T>
        ensures { option_copied result ≡ slice_get self.now.items n }
    {
        match self.own.get(n.wrapping_sub(self.base)) {
            Some(item) => Some(item),
            None => self.get_anywhere(n),
        }
    }

    /// The item of a number, if there is one, in front or behind.
    #[cold]
    #[inline(never)]
    fn get_anywhere(&self, n: usize) -> Option<&T>
        ensures { option_copied result ≡ slice_get self.now.items n }
    {
        if n < self.base {
            return item_in_front(&self.front, self.base, n);
        }
        self.own.get(n - self.base)
    }

    /// The item of a number that is there.
    pub fn at(&self, n: usize) -> &T
        requires { n < length self.now.items }
        ensures { result.now ≡ slice_index_or self.now.items n result.now }
    {
        match self.get(n) {
            Some(item) => item,
            None => unreachable!(),
        }
    }

    /// Puts an item behind the others.
    ///
    /// # Errors
    ///
    /// There is no memory for it. Nothing has changed.
    pub fn push(&mut self, value: T) -> Result<(), AllocFailed<T>>
        ensures items { self.new.items ≡ (if is_ok result then self.old.items ++ value ∷ [] else self.old.items) }
    {
        self.own.push(value)
    }

    /// Keeps the first so many items. Takes no memory.
    #[tactic(auto, using(crate::proofs::ListLemmas::take_behind))]
    pub fn truncate(&mut self, count: usize)
    where
        T: Drop,
        ensures items { self.new.items ≡ take count self.old.items }
    {
        if count < self.base {
            self.base = count;
            self.own.clear();
        } else {
            self.own.truncate(count - self.base);
        }
    }

    /// The allocator.
    pub fn allocator(&self) -> Global {
        *self.own.allocator()
    }

    /// From now on other lists may have its items in front, if there is memory for that (`another` says whether) and
    /// none stand there yet. Nothing else changes.
    pub fn share(&mut self)
    where
        T: Drop,
        ensures { self.new ≡ self.old }
    {
        if self.front.is_some() {
            return;
        }
        let alloc = self.allocator();
        let own = mem::replace(&mut self.own, Vec::new(alloc));
        let base = own.len();
        match Arc::new(alloc, own) {
            Ok(front) => {
                self.front = Some(front);
                self.base = base;
            }
            Err(failed) => self.own = failed.value,
        }
    }

    /// Another list with the same items in front, and none of its own yet. No item is copied.
    ///
    /// # Errors
    ///
    /// The list wasn't shared, or has items of its own, or too many lists have its front.
    pub fn another(&self) -> Result<SharedList<T>, AllocError>
        ensures { IfOk result (λ l. l ≡ self.now) }
    {
        match &self.front {
            Some(front) => {
                if !self.own.is_empty() {
                    return Err(AllocError);
                }
                Ok(SharedList {
                    front: Some(Arc::try_clone(front)?),
                    base: self.base,
                    own: Vec::new(self.allocator()),
                })
            }
            None => Err(AllocError),
        }
    }
}

impl<T: Copy> SharedList<T> {
    /// Puts items behind the others.
    ///
    /// # Errors
    ///
    /// There is no memory for them. Nothing has changed.
    pub fn extend_from_slice(&mut self, items: &[T]) -> Result<(), AllocError>
        ensures items { self.new.items ≡ (if is_ok result then self.old.items ++ items.now else self.old.items) }
    {
        self.own.extend_from_slice(items)
    }

    /// Another list with the same items in front, and none of its own yet. Where the list wasn't shared they are copied.
    ///
    /// # Errors
    ///
    /// There is no memory for the copy, or the list has items in front and of its own, or too many lists have its front.
    pub fn another_or_copied(&self) -> Result<SharedList<T>, AllocError>
    where
        T: Drop,
        ensures { IfOk result (λ l. l ≡ self.now) }
    {
        if self.front.is_some() {
            return self.another();
        }
        let mut copied = SharedList::new(self.allocator());
        copied.extend_from_slice(self.own.as_slice())?;
        copied.share();
        Ok(copied)
    }
}
