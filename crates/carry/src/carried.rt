use image::ImageBuf;

// An image after a log's volume was carried onto it, and the blocks that were written.
#[derive(Drop)]
pub struct Carried {
    pub image: ImageBuf,
    pub written: Vec<u32>,
}
