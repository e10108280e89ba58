//! Tests of what is sent to an etcd cluster and read from it, against what etcd 3.4.23 has
//! answered.

mod exchanges;
mod growths;
mod texts;
mod uses;
