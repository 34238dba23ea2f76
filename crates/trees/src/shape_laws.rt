//! What an insert and an append keep of a shape.
ghost use Rattle.std.specs.Prelude.{◌≡◌, ◌+◌, ◌≤◌, ℕ};
ghost use Rattle.trees.specs.Shape.{Shape, IsBalanced, size_of, ins_shape, app_shape};

/// An insert leaves a balanced tree balanced, and its leaves hold as many bytes more as went in.
pub fn insert_keeps_balance()
    ensures balanced { (fan full : ℕ) (shape : Shape) (pos n : ℕ) → 2 ≤ fan → 2 ≤ full
        → pos ≤ size_of shape
        → IsBalanced fan full shape → IsBalanced fan full (ins_shape fan full shape pos n) }
    ensures bytes { (fan full : ℕ) (shape : Shape) (pos n : ℕ) → 2 ≤ fan → 2 ≤ full
        → pos ≤ size_of shape
        → IsBalanced fan full shape → size_of (ins_shape fan full shape pos n) ≡ size_of shape + n }
{}

/// An append leaves a balanced tree balanced, and its leaves hold as many bytes more as went in.
pub fn append_keeps_balance()
    ensures balanced { (fan full : ℕ) (shape : Shape) (n : ℕ) → 2 ≤ fan → 2 ≤ full
        → IsBalanced fan full shape → IsBalanced fan full (app_shape fan full shape n) }
    ensures bytes { (fan full : ℕ) (shape : Shape) (n : ℕ) → 2 ≤ fan → 2 ≤ full
        → IsBalanced fan full shape → size_of (app_shape fan full shape n) ≡ size_of shape + n }
{}
