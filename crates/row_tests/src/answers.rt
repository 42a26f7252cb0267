//! Answer texts that are due.

/// Of the first term, where there are no examples.
pub(crate) const FIRST: &str = "(answer 1)
(term $x)
(size 1)
(node 0 $x)
";

/// Of a doubling that reaches the least number.
pub(crate) const DBL_MIN: &str = "(answer 1)
(term ($dbl $n))
(size 2)
(node 0 $n)
(node 1 $dbl 0)
(step 0 S 0 0 ((- 85070591730234615865843651857942052864)) ())
(step 1 S 1 0 ((- 170141183460469231731687303715884105728) (- 85070591730234615865843651857942052864)) (0))
(derived 0 1)
";

/// Of a child that is evaluated at another input.
pub(crate) const SHIFT: &str = "(answer 1)
(term ($shift $x))
(size 2)
(node 0 $x)
(node 1 $shift 0)
(step 0 S 0 0 (1 1) ())
(step 1 S 1 0 (0 1 1) (0))
(derived 0 1)
";

/// Of the constant whose derivation is low.
pub(crate) const FAST: &str = "(answer 1)
(term ($wrap $fast))
(size 2)
(node 0 $fast)
(node 1 $wrap 0)
(step 0 Sem 0 0 (0 0) ())
(step 1 Sem 1 0 (0 1 0) (0))
(derived 0 1)
";

/// Of the earlier constant, whose derivation is high.
pub(crate) const SLOW: &str = "(answer 1)
(term ($wrap $slow))
(size 2)
(node 0 $slow)
(node 1 $wrap 0)
(step 0 Aux 0 0 (0 0) ())
(step 1 Sem 0 0 (0 0 0) (0))
(step 2 Sem 1 0 (0 1 0) (1))
(derived 0 2)
";

/// Of the remainder of the least number by -1.
pub(crate) const LEAST: &str = "(answer 1)
(term $mod)
(size 1)
(node 0 $mod)
(step 0 S 0 0 ((- 170141183460469231731687303715884105728) 0) ())
(derived 0 0)
";

/// Of a value that is derived in two ways: the lesser values come first, though their rule comes last.
pub(crate) const PICK: &str = "(answer 1)
(term $a)
(size 1)
(node 0 $a)
(step 0 T 0 1 (1) ())
(step 1 S 0 0 (0 1) (0))
(derived 0 1)
";

/// Of rules that are numbered in the order of their leaves.
pub(crate) const RULES: &str = "(answer 1)
(term $a)
(size 1)
(node 0 $a)
(step 0 S 0 3 (3) ())
(step 1 S 0 1 (1) ())
(step 2 S 0 2 (2) ())
(derived 0 0)
(derived 1 1)
(derived 2 2)
";

/// Of a rule that calls its relation on the term itself.
pub(crate) const LOOP: &str = "(answer 1)
(term $loop)
(size 1)
(node 0 $loop)
(step 0 S 0 0 (0 0) ())
(step 1 S 0 1 (1 2 0) (0))
(step 2 S 0 1 (2 4 2) (1))
(step 3 S 0 1 (3 6 4) (2))
(derived 0 3)
";
