// The order of the groups of a depth (RULES G15 and G37).
#![tactic(auto)]

ghost use Rattle.std.specs.Prelude.{◌≡◌, ℕ, ◌≤◌, List, ◌∷◌, ◌++◌};
ghost use Rattle.model.specs.Groups.{in_depth, group_order};
ghost use Rattle.group_order.specs.Next.{first_group, remaining_after, remaining_from};

use model::Group;

// The group with which the order of the whole begins, whatever the number of ports.
pub fn first_group(depth: u32) -> Option<Group>
    ensures { (ports : ℕ) → result ≡ first_group (group_order ports depth) }
{
    Some(Group::Wires(0))
}

// Whether there is such a group at this depth, with so many ports.
pub fn is_in_depth(ports: u32, depth: u32, group: Group) -> bool
    ensures { result ≡ in_depth ports depth group }
{
    match group {
        Group::Wires(i) => i <= depth,
        Group::Pair(j, i, port) => (i <= depth) & (j < i) & ((1 <= port) & (port <= ports)),
        Group::Closing(i, port) => (i <= depth) & ((1 <= port) & (port <= ports)),
        Group::Property => true,
    }
}

// The group that follows `group` in the order of the whole at this depth, with so many ports; behind a group that is not in it there is
// none.
pub fn next_group(ports: u32, depth: u32, group: Group) -> Option<Group>
    requires { 1 ≤ ports }
    ensures follows { (xs ys : List Group) → group_order ports depth ≡ xs ++ group ∷ ys → result ≡ first_group ys }
    ensures absent { ((xs ys : List Group) → group_order ports depth ≡ xs ++ group ∷ ys → ⊥) → result ≡ None }
    ensures ends { remaining_from ports depth result ≤ remaining_after ports depth group }
{
    if !is_in_depth(ports, depth, group) {
        return None;
    }
    match group {
        Group::Wires(i) => if i == 0 {
            Some(Group::Closing(i, 1))
        } else {
            Some(Group::Pair(i - 1, i, 1))
        },
        Group::Pair(j, i, port) => if port < ports {
            Some(Group::Pair(j, i, port + 1))
        } else if j == 0 {
            Some(Group::Closing(i, 1))
        } else {
            Some(Group::Pair(j - 1, i, 1))
        },
        Group::Closing(i, port) => if port < ports {
            Some(Group::Closing(i, port + 1))
        } else if i < depth {
            Some(Group::Wires(i + 1))
        } else {
            Some(Group::Property)
        },
        Group::Property => None,
    }
}
