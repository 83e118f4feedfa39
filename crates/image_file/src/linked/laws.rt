//! That a file is that of one image.
ghost use Rattle.image_file.specs.Linked.{OneImage};

/// The law that the file of an image is read as that image and no other: images of the same bytes are one.
pub fn one_image()
    ensures { OneImage }
{}
