//! The shape of a container: version 1, or version 2 with a chunk size and a label. A shape allocates nothing.
ghost use Rattle.std.specs.Prelude.{◌≡◌, ◌≤◌, ◌⊎◌, ◌+◌, ◌^◌, ◌<◌, length, option_map, IfOk, OnOk, OnErr, IfSome};
ghost use Rattle.container_core.specs.Shape.{one, two, size_of, IsShape, IsShort};
ghost use Rattle.container_core.specs.Container.{label_bytes};
ghost use Rattle.container_core.specs.Chunks.{most_chunk};

use crate::image::Image;
use crate::{EXPONENT, HEADER, MAX_EXPONENT, MAX_LABEL, MIN_EXPONENT};
use std::marker::Model;

/// A shape's exponent isn't one of 12 to 20, or its label has more than 255 bytes.
#[derive(Clone, Copy, PartialEq, Eq, Debug)]
pub struct BadShape;

impl BadShape {
    /// The fault's number.
    pub fn number(self) -> u32
        ensures { result ≡ 18 }
    {
        18
    }
}

/// The version of a container, the size of its chunks, and in version 2 its label. Contracts see the exponent of the
/// size, and the label.
#[derive(Drop)]
pub struct Shape {
    exponent: u8,
    label: Option<Image>,
}

impl Model for Shape {
    ghost use Rattle.container_core.specs.Shape.{ShapeView, IsShapeOf, IsShort};

    ghost Value = { ShapeView };

    ghost view = { λ s. record { exponent = s.exponent; label = s.label } };

    ghost invariant = { λ s. IsShapeOf s.exponent s.label × IsShort s.label };
}

impl Shape {
    /// Returns version 1: chunks of 65,536 bytes, and no label.
    pub fn one() -> Shape
        ensures { result ≡ one }
    {
        Shape {
            exponent: EXPONENT,
            label: None,
        }
    }

    /// Returns version 2: chunks of 2^exponent bytes, and a label. `BadShape` if the exponent isn't one of 12 to 20, or
    /// the label has more than 255 bytes.
    pub fn two(exponent: u32, label: &[u8]) -> Result<Shape, BadShape>
        ensures shape { IfOk result (λ shape. shape ≡ two exponent label.now) }
        ensures lawful { OnOk result ((12 ≤ exponent) × ((exponent ≤ 20) × (length label.now ≤ 255))) }
        ensures refused { OnErr result ((exponent < 12) ⊎ ((20 < exponent) ⊎ (255 < length label.now))) }
    {
        if exponent < MIN_EXPONENT || exponent > MAX_EXPONENT || label.len() > MAX_LABEL {
            return Err(BadShape);
        }
        let mut image = Image::new();
        image.append(label);
        Ok(Shape {
            exponent: exponent as u8,
            label: Some(image),
        })
    }

    /// The exponent of the chunks' size.
    pub(crate) fn exponent(&self) -> u8
        ensures value { result ≡ self.now.exponent }
        ensures least { 12 ≤ result }
        ensures most { result ≤ 20 }
        ensures shape { IsShape self.now }
    {
        self.exponent
    }

    // The label, of at most 255 bytes.
    pub(crate) fn label(&self) -> Option<&[u8]>
        ensures value { option_map (λ b. b.now) result ≡ self.now.label }
        ensures short { IfSome result (λ b. length b.now ≤ 255) }
    {
        match &self.label {
            None => None,
            Some(image) => Some(image.as_slice()),
        }
    }

    /// Returns how many bytes a header of this shape has: 24, in version 2 25 and the label's.
    pub fn header_bytes(&self) -> usize
        ensures value { result ≡ 24 + length (label_bytes self.now.label) }
        ensures most { result ≤ 280 }
    {
        match self.label() {
            None => HEADER,
            Some(label) => HEADER + 1 + label.len(),
        }
    }

    /// Returns the plaintext bytes of every chunk but the last: 2 to the exponent.
    pub fn chunk(&self) -> usize
        ensures value { result ≡ size_of self.now }
        ensures least { 4096 ≤ result }
        ensures most { result ≤ most_chunk }
        // Every value of the type is the shape of a container.
        ensures shape { IsShape self.now }
    {
        power(self.exponent())
    }
}

// 2 to an exponent.
pub(crate) fn power(exponent: u8) -> usize
    requires { (12 ≤ exponent) × (exponent ≤ 20) }
    ensures value { result ≡ 2 ^ exponent }
    ensures least { 4096 ≤ result }
    ensures most { result ≤ most_chunk }
{
    1 << exponent
}
