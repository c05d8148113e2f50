//! Tests of images, which the drop-in for `llvm-symbolizer` reads. An expected value comes from the
//! format.

mod images;
