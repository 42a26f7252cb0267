//! What stands before and after the cases of a table. The lines after them make a whole problem of the file.

/// The case is the whole file.
pub(crate) const WHOLE: (&str, &str) = ("", "");

/// The case comes before any declaration.
pub(crate) const FIRST: (&str, &str) = (
    "(set-info :status x)\n",
    "\n(declare-term-types ((Z 0)) (($z)))
(synth-fun f () Z)
(check-synth)
",
);

/// The case comes after the declaration of two types: E with two constants, a sum and a constructor over F, and F with
/// one constant.
pub(crate) const AFTER_TYPES: (&str, &str) = (
    "(declare-term-types ((E 0) (F 0)) (($a $b ($+ E E) ($g F)) ($f)))
",
    "
(synth-fun f () E)
(check-synth)
",
);

/// The case is the cases of a match on t, of a relation S on E with the input x and the output r. There is a relation P
/// on F, too.
pub(crate) const CASES: (&str, &str) = (
    "(declare-term-types ((E 0) (F 0)) (($a $b ($+ E E) ($g F)) ($f)))
(define-funs-rec
 ((S ((t E) (x Int) (r Int)) Bool)
  (P ((t F) (p Bool)) Bool))
 ((! (match t (
    ",
    "))
   :input (x) :output (r))
  (! (match t (($f (= p true)))) :input () :output (p))))
(synth-fun f () E)
(check-synth)
",
);

/// The case is the body of the sum of u and v, in such a match.
pub(crate) const BODY: (&str, &str) = (
    "(declare-term-types ((E 0) (F 0)) (($a $b ($+ E E) ($g F)) ($f)))
(define-funs-rec
 ((S ((t E) (x Int) (r Int)) Bool)
  (P ((t F) (p Bool)) Bool))
 ((! (match t ((($+ u v)
    ",
    ")))
   :input (x) :output (r))
  (! (match t (($f (= p true)))) :input () :output (p))))
(synth-fun f () E)
(check-synth)
",
);

/// The case is an atom of that body, beside one that makes r known.
pub(crate) const ATOM: (&str, &str) = (
    "(declare-term-types ((E 0) (F 0)) (($a $b ($+ E E) ($g F)) ($f)))
(define-funs-rec
 ((S ((t E) (x Int) (r Int)) Bool)
  (P ((t F) (p Bool)) Bool))
 ((! (match t ((($+ u v) (and (= r x)
    ",
    "))))
   :input (x) :output (r))
  (! (match t (($f (= p true)))) :input () :output (p))))
(synth-fun f () E)
(check-synth)
",
);

/// The case comes after relations: S on E with an output, T with an input before the term and an output after it, P on
/// F with an output of truth values.
pub(crate) const AFTER_RELATIONS: (&str, &str) = (
    "(declare-term-types ((E 0) (F 0)) (($a $b ($+ E E) ($g F)) ($f)))
(define-funs-rec
 ((S ((t E) (r Int)) Bool)
  (T ((x Int) (t E) (p Bool)) Bool)
  (P ((t F) (p Bool)) Bool))
 ((! (match t (($a (= r 1)))) :input () :output (r))
  (! (match t (($a (= p (= x 1))))) :input (x) :output (p))
  (! (match t (($f (= p true)))) :input () :output (p))))
",
    "
(check-synth)
",
);

/// The case comes after such relations and the wanted function f on E.
pub(crate) const AFTER_WANTED: (&str, &str) = (
    "(declare-term-types ((E 0) (F 0)) (($a $b ($+ E E) ($g F)) ($f)))
(define-funs-rec
 ((S ((t E) (r Int)) Bool)
  (T ((x Int) (t E) (p Bool)) Bool)
  (P ((t F) (p Bool)) Bool))
 ((! (match t (($a (= r 1)))) :input () :output (r))
  (! (match t (($a (= p (= x 1))))) :input (x) :output (p))
  (! (match t (($f (= p true)))) :input () :output (p))))
(synth-fun f () E)
",
    "
(check-synth)
",
);

/// The case is the body of the sum of u and v, of a relation S with the inputs x and y and the outputs r and s. There is
/// a relation D, too, with an output before its term, an input and another output.
pub(crate) const FLOW: (&str, &str) = (
    "(declare-term-types ((E 0)) (($a ($+ E E))))
(define-funs-rec
 ((S ((t E) (x Int) (y Int) (r Int) (s Int)) Bool)
  (D ((o Int) (t E) (i Int) (p Int)) Bool))
 ((! (match t ((($+ u v)
    ",
    ")))
   :input (x y) :output (r s))
  (! (match t ()) :input (i) :output (o p))))
(synth-fun f () E)
(check-synth)
",
);
