//! Which sections differ, so that a builder of one is made from that of another.
use super::{Additionals, Answers, Authorities, Questions, Start};

/// A section other than this one.
pub trait OtherThan<Section> {}

impl OtherThan<Start> for Questions {}

impl OtherThan<Start> for Answers {}

impl OtherThan<Start> for Authorities {}

impl OtherThan<Start> for Additionals {}

impl OtherThan<Questions> for Start {}

impl OtherThan<Questions> for Answers {}

impl OtherThan<Questions> for Authorities {}

impl OtherThan<Questions> for Additionals {}

impl OtherThan<Answers> for Start {}

impl OtherThan<Answers> for Questions {}

impl OtherThan<Answers> for Authorities {}

impl OtherThan<Answers> for Additionals {}

impl OtherThan<Authorities> for Start {}

impl OtherThan<Authorities> for Questions {}

impl OtherThan<Authorities> for Answers {}

impl OtherThan<Authorities> for Additionals {}

impl OtherThan<Additionals> for Start {}

impl OtherThan<Additionals> for Questions {}

impl OtherThan<Additionals> for Answers {}

impl OtherThan<Additionals> for Authorities {}
