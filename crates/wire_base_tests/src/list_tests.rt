//! Lists of all kinds of items.

ghost use Rattle.std.specs.Prelude.{◌≡◌, IfOk};

use std::alloc::Global;
use std::test::Fail;
use wire_base::{List, Memory, Octets, TryCopy};

/// Whether a list holds what is put in, and was empty at first.
fn holds_what_is_put_in(alloc: Global) -> Result<bool, Memory> {
    let mut list: Octets = List::new(alloc);
    let was_empty = list.is_empty();
    list.push(1)?;
    list.extend(&[2, 3])?;
    let items = list.as_slice() == [1, 2, 3].as_slice();
    let places = (list.get(2) == Some(&3)) & list.get(3).is_none();
    Ok(was_empty & !list.is_empty() & (list.len() == 3) & items & places)
}

/// Whether a list with room made beforehand holds what is put in.
fn holds_in_its_room(list: &Octets) -> Result<bool, Memory> {
    let mut numbers = List::with_capacity(list.allocator(), 2)?;
    numbers.extend(&[500u16, 600])?;
    Ok(numbers.into_vec().as_slice() == [500, 600].as_slice())
}

#[test]
fn lists_hold_what_is_put_in(rt: HostRuntime) -> Result<(), Fail> {
    let pushed = holds_what_is_put_in(rt.alloc())?;
    let in_room = holds_in_its_room(&List::new(rt.alloc()))?;
    assert!(rt; pushed & in_room);
    Ok(())
}

/// Whether items stand where they are put in.
fn has_items_in_between(alloc: Global) -> Result<bool, Memory> {
    let mut list: Octets = List::new(alloc);
    list.insert(0, 3)?;
    list.insert(0, 1)?;
    list.insert(1, 2)?;
    list.insert(3, 4)?;
    Ok(list.as_slice() == [1, 2, 3, 4].as_slice())
}

/// Whether the items of the list, except the first two, are `rest`.
fn has_after_two(alloc: Global, rest: &[u32]) -> Result<bool, Memory> {
    let mut list = List::from_slice(alloc, &[1, 2, 3, 4])?;
    list.drop_front(2);
    Ok(list.as_slice() == rest)
}

/// Whether the first two items of the list are `rest`.
fn has_up_to_two(alloc: Global, rest: &[u32]) -> Result<bool, Memory> {
    let mut list = List::from_slice(alloc, &[1, 2, 3, 4])?;
    list.truncate(2);
    Ok(list.as_slice() == rest)
}

#[test]
fn items_are_put_in_between_and_dropped(rt: HostRuntime) -> Result<(), Fail> {
    let alloc = rt.alloc();
    let between = has_items_in_between(alloc)?;
    let others = has_after_two(alloc, &[3, 4])?;
    let fewer = has_after_two(alloc, &[4])?;
    let first = has_up_to_two(alloc, &[1, 2])?;
    assert!(rt; between & others & !fewer & first);
    Ok(())
}

/// Whether a copy of a list of these items equals it.
fn are_copied<T: TryCopy + Copy + PartialEq>(alloc: Global, items: &[T]) -> Result<bool, Memory> {
    let list = List::from_slice(alloc, items)?;
    Ok(list.copy()? == list)
}

#[test]
fn lists_of_plain_values_are_copied(rt: HostRuntime) -> Result<(), Fail> {
    let alloc = rt.alloc();
    let octets = are_copied(alloc, &[255u8, 0])?;
    let numbers = are_copied(alloc, &[4_294_967_295u32, 0])?;
    let signed = are_copied(alloc, &[-1i64, 1])?;
    let truths = are_copied(alloc, &[true, false])?;
    let pairs = are_copied(alloc, &[(7u32, true), (8, false)])?;
    assert!(rt; octets & numbers & signed & truths & pairs);
    Ok(())
}

/// A copy that is made through the bound.
fn copy_of<T: TryCopy>(item: &T) -> Result<T, Memory>
    ensures { IfOk result (λ made. made ≡ item.now) }
{
    item.copy()
}

/// An item that owns memory.
#[derive(Drop)]
struct Named {
    number: u8,
    name: Octets,
}

impl TryCopy for Named {
    fn copy(&self) -> Result<Self, Memory> {
        Ok(Named {
            number: self.number,
            name: self.name.copy()?,
        })
    }
}

fn item(alloc: Global, number: u8, name: &[u8]) -> Result<Named, Memory> {
    Ok(Named {
        number,
        name: List::from_slice(alloc, name)?,
    })
}

/// Whether these are the items named one and two.
fn are_both(items: &[Named]) -> bool {
    match items {
        [one, two] => {
            let names = (one.name.as_slice(), two.name.as_slice());
            (one.number, two.number) == (7, 8) && names == (b"one".as_slice(), b"two".as_slice())
        }
        _ => false,
    }
}

/// Whether a copy of a list of structs has their values.
fn structs_are_copied(alloc: Global) -> Result<bool, Memory> {
    let mut list = List::new(alloc);
    list.push(item(alloc, 7, b"one")?)?;
    list.push(item(alloc, 8, b"two")?)?;
    Ok(are_both(copy_of(&list)?.as_slice()))
}

/// Whether these are `ab`, nothing, and `c`.
fn are_three(lists: &[Octets]) -> bool {
    match lists {
        [one, other, third] => {
            one.as_slice() == b"ab".as_slice()
                && other.is_empty()
                && third.as_slice() == b"c".as_slice()
        }
        _ => false,
    }
}

/// Whether a copy of a list of lists has their items.
fn lists_are_copied(alloc: Global) -> Result<bool, Memory> {
    let mut lists = List::new(alloc);
    lists.push(List::from_slice(alloc, b"ab")?)?;
    lists.push(List::new(alloc))?;
    lists.push(List::from_slice(alloc, b"c")?)?;
    let again = List::from_vec(copy_of(&lists)?.into_vec());
    Ok(are_three(again.as_slice()))
}

#[test]
fn lists_of_what_owns_memory_are_copied(rt: HostRuntime) -> Result<(), Fail> {
    let structs = structs_are_copied(rt.alloc())?;
    let lists = lists_are_copied(rt.alloc())?;
    assert!(rt; structs & lists);
    Ok(())
}

/// A type that holds itself by a list.
#[derive(Drop)]
enum Tree {
    Leaf(u8),
    Many(List<Tree>),
}

/// Whether a leaf of the tree has the value.
fn has_leaf(tree: &Tree, value: u8) -> bool {
    match tree {
        Tree::Leaf(leaf) => *leaf == value,
        Tree::Many(trees) => {
            for tree in trees.as_slice() {
                if has_leaf(tree, value) {
                    return true;
                }
            }
            false
        }
    }
}

/// The leaf 1, beside a list of the leaves 2 and 3.
fn tree_of_three(alloc: Global) -> Result<Tree, Memory> {
    let mut inner = List::new(alloc);
    inner.push(Tree::Leaf(2))?;
    inner.push(Tree::Leaf(3))?;
    let mut outer = List::new(alloc);
    outer.push(Tree::Leaf(1))?;
    outer.push(Tree::Many(inner))?;
    Ok(Tree::Many(outer))
}

/// Whether the leaves of the tree are 1 to 3.
fn has_three_leaves(alloc: Global) -> Result<bool, Memory> {
    let tree = tree_of_three(alloc)?;
    let there = has_leaf(&tree, 1) && has_leaf(&tree, 2) && has_leaf(&tree, 3);
    Ok(there && !has_leaf(&tree, 4))
}

#[test]
fn a_type_may_hold_a_list_of_itself(rt: HostRuntime) -> Result<(), Fail> {
    assert!(rt; has_three_leaves(rt.alloc())?);
    Ok(())
}
