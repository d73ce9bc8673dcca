ghost use Rattle.std.specs.Prelude.{◌≡◌, ℕ, All, List, Some, None, IsSome, if◌then◌else◌};
ghost use Rattle.std.specs.FinMap as map;
ghost use Rattle.std.specs.Str.{bytes_eq};
ghost use Rattle.conda_base.specs.Texts.{Ascending};
ghost use Rattle.conda_path.specs.declared.values.Node.{Node};
ghost use Rattle.conda_device.specs.Tree.{Tree, move};

/// What stands at each path of a tree in which a node was put, erased or moved. Trees that have the
/// same at each path are one. The paths of a tree ascend by bytes.
pub fn tree_laws()
    ensures put { (tree : Tree) (path other : List ℕ) (node : Node) →
        map.get (map.insert tree path node) other
        ≡ (if bytes_eq other path then Some node else map.get tree other) }
    ensures erased { (tree : Tree) (path other : List ℕ) →
        map.get (map.remove tree path) other
        ≡ (if bytes_eq other path then None else map.get tree other) }
    ensures moved { (tree : Tree) (from to other : List ℕ) → IsSome (map.get tree from) →
        map.get (move tree from to) other
        ≡ (if bytes_eq other to then map.get tree from
        else (if bytes_eq other from then None else map.get tree other)) }
    ensures same { (one other : Tree) →
        ((path : List ℕ) → map.get one path ≡ map.get other path) → one ≡ other }
    ensures ascending { (tree : Tree) → Ascending (map.keys tree) }
    ensures keys { (tree : Tree) → All (λ path. IsSome (map.get tree path)) (map.keys tree) }
{}
