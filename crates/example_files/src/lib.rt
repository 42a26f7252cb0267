//! Files of examples, for crates of tests: problems, answers and a canonical text.
#![tactic(auto)]

/// The greater of two numbers: sums, choices and conditions, with two examples.
pub const MAX2: &str = "(set-info :format-version \"2.0.0\")
(declare-term-types ((E 0) (B 0))
 ((($x) ($y) ($0) ($1) ($+ E E) ($ite B E E))
  (($t) ($f) ($not B) ($and B B) ($or B B) ($< E E))))
(define-funs-rec
 ((E.Sem ((et E) (x Int) (y Int) (r Int)) Bool)
  (B.Sem ((bt B) (x Int) (y Int) (r Bool)) Bool))
 ((! (match et
   (($x (= r x)) ($y (= r y)) ($0 (= r 0)) ($1 (= r 1))
    (($+ et1 et2) (exists ((r1 Int) (r2 Int))
      (and (E.Sem et1 x y r1) (E.Sem et2 x y r2) (= r (+ r1 r2)))))
    (($ite bt1 et1 et2) (exists ((b Bool) (r1 Int) (r2 Int))
      (and (B.Sem bt1 x y b) (E.Sem et1 x y r1) (E.Sem et2 x y r2)
           (= r (ite b r1 r2)))))))
   :input (x y) :output (r))
  (! (match bt
   (($t (= r true)) ($f (= r false))
    (($not bt1) (exists ((b Bool)) (and (B.Sem bt1 x y b) (= r (not b)))))
    (($and bt1 bt2) (exists ((b Bool) (c Bool))
      (and (B.Sem bt1 x y b) (B.Sem bt2 x y c) (= r (and b c)))))
    (($or bt1 bt2) (exists ((b Bool) (c Bool))
      (and (B.Sem bt1 x y b) (B.Sem bt2 x y c) (= r (or b c)))))
    (($< et1 et2) (exists ((r1 Int) (r2 Int))
      (and (E.Sem et1 x y r1) (E.Sem et2 x y r2) (= r (< r1 r2)))))))
   :input (x y) :output (r))))
(synth-fun max2 () E)
(constraint (E.Sem max2 4 2 4))
(constraint (E.Sem max2 2 5 5))
(check-synth)
";

/// A doubling that reaches the least number.
pub const DBL_MIN: &str = "(declare-term-types ((E 0)) (($m $n ($dbl E))))
(define-funs-rec ((S ((t E) (r Int)) Bool))
 ((! (match t (($m (= r 85070591730234615865843651857942052864))
   ($n (= r (- 85070591730234615865843651857942052864)))
   (($dbl u) (exists ((q Int)) (and (S u q) (= r (+ q q)))))))
  :input () :output (r))))
(synth-fun f () E)
(constraint (S f (- 170141183460469231731687303715884105728)))
(check-synth)
";

/// A constructor that evaluates its child at another input.
pub const SHIFT: &str = "(declare-term-types ((E 0)) (($0 $x ($shift E))))
(define-funs-rec ((S ((t E) (x Int) (r Int)) Bool))
 ((! (match t (($0 (= r 0)) ($x (= r x))
   (($shift u) (exists ((q Int)) (and (S u (+ x 1) q) (= r q))))))
  :input (x) :output (r))))
(synth-fun f () E)
(constraint (S f 0 1))
(check-synth)
";

/// Two constants of one value, of which one takes a higher derivation.
pub const SLOW: &str = "(declare-term-types ((E 0)) (($slow $fast ($wrap E))))
(define-funs-rec ((Sem ((t E) (x Int) (r Int)) Bool) (Aux ((t E) (x Int) (r Int)) Bool))
 ((! (match t (($slow (exists ((q Int)) (and (Aux t x q) (= r q))))
   ($fast (= r x))
   (($wrap u) (exists ((q Int)) (and (Sem u x q) (= r (+ q 1)))))))
  :input (x) :output (r))
  (! (match t (($slow (= r x)) ($fast (= r x)))) :input (x) :output (r))))
(synth-fun f () E)
(constraint (Sem f 0 1))
(check-synth)
";

/// The least number divided by -1, and its remainder.
pub const LEAST: &str = "(declare-term-types ((E 0)) (($div $mod)))
(define-funs-rec ((S ((t E) (x Int) (r Int)) Bool))
 ((! (match t (($div (= r (div x (- 1)))) ($mod (= r (mod x (- 1))))))
  :input (x) :output (r))))
(synth-fun f () E)
(constraint (S f (- 170141183460469231731687303715884105728) 0))
(check-synth)
";

/// A constant whose value is derived in two ways.
pub const PICK: &str = "(declare-term-types ((E 0)) (($a)))
(define-funs-rec ((T ((t E) (q Int)) Bool) (S ((t E) (r Int)) Bool))
 ((! (match t (($a (= q 2)) ($a (= q 1)))) :input () :output (q))
  (! (match t (($a (exists ((v Int)) (and (T t v) (= r 0)))))) :input () :output (r))))
(synth-fun f () E)
(constraint (S f 0))
(check-synth)
";

/// Truth values of which no term has both.
pub const MANY: &str = "(declare-term-types ((B 0)) (($t ($not B) ($and B B))))
(define-funs-rec ((S ((t B) (r Bool)) Bool))
 ((! (match t (($t (= r true))
   (($not u) (exists ((p Bool)) (and (S u p) (= r (not p)))))
   (($and u v) (exists ((p Bool) (q Bool)) (and (S u p) (S v q) (= r (and p q)))))))
  :input () :output (r))))
(synth-fun f () B)
(constraint (S f true))
(constraint (S f false))
(check-synth)
";

/// A rule that calls its relation on the term itself.
pub const LOOP: &str = "(declare-term-types ((E 0)) (($loop)))
(define-funs-rec ((S ((t E) (x Int) (r Int)) Bool))
 ((! (match t (($loop (or (and (<= x 0) (= r 0))
   (exists ((q Int)) (and (> x 0) (S t (- x 1) q) (= r (+ q 2))))))))
  :input (x) :output (r))))
(synth-fun f () E)
(constraint (S f 3 6))
(check-synth)
";

/// A constant of two values.
pub const TWICE: &str = "(declare-term-types ((E 0)) (($c)))
(define-funs-rec ((S ((t E) (r Int)) Bool)) ((! (match t (($c (= r 0)) ($c (= r 1)))) :input () :output (r))))
(synth-fun f () E)
(constraint (S f 0))
(constraint (S f 1))
(check-synth)
";

/// One constant.
pub const TINY: &str = "(declare-term-types ((E 0)) (($a)))
(define-funs-rec ((S ((t E) (r Int)) Bool)) ((! (match t (($a (= r 1)))) :input () :output (r))))
(synth-fun f () E)
(constraint (S f 1))
(check-synth)
";

/// An equation whose variable stands on the right, negative literals in three spellings, attributes in the other order.
pub const SPELLED: &str = "(declare-term-types ((E 0)) ((($x) |$k|)))
(define-funs-rec ((S ((t E) (x Int) (r Int)) Bool))
 ((! (match t (((|$x|) (= x r)) ($k (= r -4)))) :output (r) :input (x))))
(synth-fun f () E)
(constraint (S f -4 (- 4))) ; one example
(check-synth)
";

/// The canonical text of `SPELLED`.
pub const SPELLED_AGAIN: &str = "(declare-term-types ((E 0)) (($x $k)))
(define-funs-rec ((S ((t E) (x Int) (r Int)) Bool)) ((! (match t (($x (and (= r x))) ($k (and (= r (- 4)))))) :input (x) :output (r))))
(synth-fun f () E)
(constraint (S f (- 4) (- 4)))
(check-synth)
";

/// A grammar without productions.
pub const TINY_EMPTY: &str = "(declare-term-types ((E 0)) (($a)))
(define-funs-rec ((S ((t E) (r Int)) Bool)) ((! (match t (($a (= r 1)))) :input () :output (r))))
(synth-fun f () E ((A E)) ((A E ())))
(constraint (S f 1))
(check-synth)
";

/// The answer to `MAX2` within height 3 and size 6.
pub const MAX2_ANSWER: &str = "(answer 1)
(term ($ite ($< $x $y) $y $x))
(size 6)
(node 0 $x)
(node 1 $y)
(node 2 $< 0 1)
(node 3 $ite 2 1 0)
(step 0 E.Sem 0 0 (4 2 4) ())
(step 1 E.Sem 1 0 (4 2 2) ())
(step 2 B.Sem 2 0 (4 2 false 4 2) (0 1))
(step 3 E.Sem 3 0 (4 2 4 false 2 4) (2 1 0))
(step 4 E.Sem 0 0 (2 5 2) ())
(step 5 E.Sem 1 0 (2 5 5) ())
(step 6 B.Sem 2 0 (2 5 true 2 5) (4 5))
(step 7 E.Sem 3 0 (2 5 5 true 5 2) (6 5 4))
(derived 0 3)
(derived 1 7)
";

/// The answer to `TINY`.
pub const TINY_ANSWER: &str = "(answer 1)
(term $a)
(size 1)
(node 0 $a)
(step 0 S 0 0 (1) ())
(derived 0 0)
";
