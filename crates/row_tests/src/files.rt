//! Problem files.

/// A doubling that would pass the greatest number.
pub(crate) const DBL_MAX: &str = "(declare-term-types ((E 0)) (($m $n ($dbl E))))
(define-funs-rec ((S ((t E) (r Int)) Bool))
 ((! (match t (($m (= r 85070591730234615865843651857942052864))
   ($n (= r (- 85070591730234615865843651857942052864)))
   (($dbl u) (exists ((q Int)) (and (S u q) (= r (+ q q)))))))
  :input () :output (r))))
(synth-fun f () E)
(constraint (S f 170141183460469231731687303715884105727))
(check-synth)
";

/// A grammar with a production twice.
pub(crate) const TINY_TWICE: &str = "(declare-term-types ((E 0)) (($a)))
(define-funs-rec ((S ((t E) (r Int)) Bool)) ((! (match t (($a (= r 1)))) :input () :output (r))))
(synth-fun f () E ((A E)) ((A E ($a $a))))
(constraint (S f 1))
(check-synth)
";

/// Rules of one constructor: repeated patterns, and branches.
pub(crate) const RULES: &str = "(declare-term-types ((E 0)) (($a)))
(define-funs-rec ((S ((t E) (r Int)) Bool))
 ((! (match t (($a (= r 0)) ($a (or (= r 1) (= r 2))) (($a) (= r 3)))) :input () :output (r))))
(synth-fun f () E)
(constraint (S f 3))
(constraint (S f 1))
(constraint (S f 2))
(check-synth)
";

/// No constant derives 2.
pub(crate) const TINY_WITH_2: &str = "(declare-term-types ((E 0)) (($a)))
(define-funs-rec ((S ((t E) (r Int)) Bool)) ((! (match t (($a (= r 1)))) :input () :output (r))))
(synth-fun f () E)
(constraint (S f 2))
(check-synth)
";
